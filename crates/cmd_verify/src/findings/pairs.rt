// Looks at the two members of a pair.
ghost use Rattle.std.specs.Prelude.{◌≡◌, IfOk, IfSome, OnOk, IsErrOf, string_bytes};
ghost use Rattle.base_devices.specs.Cause.{Rises};
ghost use Rattle.base_model.specs.Names.{manifest_name};
ghost use Rattle.base_model.specs.InfoFiles.{IsLabel};
ghost use Rattle.base_model.specs.ManifestText.{IsManifest, IsManifestText};
ghost use Rattle.base_model.specs.Values.{manifest_of};
ghost use Rattle.cmd_verify.specs.Looking.{HoldsMember, HoldsValue, HaveValue, AddsMember, AddsBoth, AddsPair};
ghost use Rattle.cmd_verify.specs.Members.{IfGood};
ghost use Rattle.base_devices.specs.States.{OnlyReads};

use crate::findings::finding::{Finding, FindingKind, LookFault};
use base_devices::Disk;
use base_disk::{StoreFault, read_whole};
use base_model::{Label, Manifest};
use base_text::NoMemory;
use repo_info::ReadInfo;
use repo_manifest::Stored;
use repo_names::label_text;
use std::alloc::Global;

/// What is at a member's name.
#[derive(Drop)]
pub(crate) enum Member<I> {
    Absent,
    Bad,
    Good { bytes: Vec<u8>, value: I },
}

fn read_member<D: Disk, I: ReadInfo>(
    alloc: Global,
    d: &mut D,
    name: &str,
) -> Result<Member<I>, LookFault>
    ensures member { IfOk result (HoldsMember I.IsText I.value name.now (D.state d.old)) }
    ensures valid { IfOk result (λ m. IfGood I.is_valid m) }
    ensures looks { OnlyReads (D.state d.old) (D.state d.new) }
    ensures cause { IsErrOf result LookFault.Disk → Rises (D.state d.old).faults (D.state d.new).faults }
{
    match read_whole(alloc, d, name, I::limit()) {
        Ok(None) => Ok(Member::Absent),
        Ok(Some(bytes)) => match I::read(alloc, &bytes)? {
            Ok(value) => Ok(Member::Good { bytes, value }),
            Err(_) => Ok(Member::Bad),
        },
        Err(StoreFault::TooLong { .. }) => Ok(Member::Bad),
        Err(StoreFault::Disk) => Err(LookFault::Disk),
        Err(StoreFault::NoMemory) => Err(LookFault::NoMemory),
    }
}

fn known(alloc: Global, name: &str, kind: FindingKind, line: &str) -> Result<Finding, NoMemory>
    ensures name { IfOk result (λ x. string_bytes x.name ≡ name.now) }
    ensures kind { IfOk result (λ x. x.kind ≡ kind) }
    ensures line { IfOk result (λ x. string_bytes x.line ≡ line.now) }
{
    let name = String::from_str(alloc, name)?;
    let line = String::from_str(alloc, line)?;
    Ok(Finding { name, kind, line })
}

fn tell_member<I: ReadInfo>(
    alloc: Global,
    name: &str,
    member: &Member<I>,
    found: &mut Vec<Finding>,
) -> Result<(), NoMemory>
    ensures { OnOk result (AddsMember I.IsText I.value name.now member.now found.old found.new) }
{
    match member {
        Member::Absent => found.push(known(
            alloc,
            name,
            FindingKind::MemberAbsent,
            "member absent",
        )?)?,
        Member::Bad => found.push(known(alloc, name, FindingKind::MemberBad, "member not valid")?)?,
        Member::Good { .. } => (),
    }
    Ok(())
}

fn tell_both<I: ReadInfo>(
    alloc: Global,
    name: &str,
    main: &Member<I>,
    copy: &Member<I>,
    found: &mut Vec<Finding>,
) -> Result<(), NoMemory>
    ensures { OnOk result (AddsBoth I.IsText I.value name.now main.now copy.now found.old found.new) }
{
    let Member::Good { bytes, .. } = main else {
        return Ok(());
    };
    let Member::Good { bytes: other, .. } = copy else {
        return Ok(());
    };
    if bytes != other {
        found.push(known(alloc, name, FindingKind::MembersDiffer, "members differ")?)?;
    }
    Ok(())
}

fn value_of<I: ReadInfo>(main: Member<I>, copy: Member<I>) -> Option<I>
    ensures valid { IfGood I.is_valid main → IfGood I.is_valid copy → IfSome result I.is_valid }
    ensures value { HaveValue I.IsText I.value main copy result }
{
    match (main, copy) {
        (Member::Good { value, .. }, _) => Some(value),
        (_, Member::Good { value, .. }) => Some(value),
        _ => None,
    }
}

/// Looks at the two members of a pair. The answer is its value, where it has one.
pub(crate) fn look_at_pair<D: Disk, I: ReadInfo>(
    alloc: Global,
    d: &mut D,
    name: &str,
    found: &mut Vec<Finding>,
) -> Result<Option<I>, LookFault>
    ensures adds { OnOk result (AddsPair I.IsText name.now (D.state d.old) found.old found.new) }
    ensures value { IfOk result (HoldsValue I.IsText I.value name.now (D.state d.old)) }
    ensures valid { IfOk result (λ v. IfSome v I.is_valid) }
    ensures looks { OnlyReads (D.state d.old) (D.state d.new) }
    ensures cause { IsErrOf result LookFault.Disk → Rises (D.state d.old).faults (D.state d.new).faults }
{
    let copy_name = format!(in alloc; "{name}.copy")?;
    let main: Member<I> = read_member(alloc, d, name)?;
    let copy: Member<I> = read_member(alloc, d, copy_name.as_str())?;
    tell_member(alloc, name, &main, found)?;
    tell_member(alloc, copy_name.as_str(), &copy, found)?;
    tell_both(alloc, name, &main, &copy, found)?;
    Ok(value_of(main, copy))
}

/// The main name of the label's manifest.
pub(crate) fn manifest_name(alloc: Global, stanza: &str, label: &Label) -> Result<String, NoMemory>
    requires { IsLabel label.now }
    ensures { IfOk result (λ name. string_bytes name ≡ manifest_name stanza.now label.now) }
{
    let label = label_text(alloc, label)?;
    Ok(format!(in alloc; "backup/{stanza}/{label}/backup.manifest")?)
}

/// Looks at the two members of a manifest.
pub(crate) fn look_at_manifest<D: Disk>(
    alloc: Global,
    d: &mut D,
    name: &str,
    found: &mut Vec<Finding>,
) -> Result<Option<Manifest>, LookFault>
    ensures adds { OnOk result (AddsPair IsManifestText name.now (D.state d.old) found.old found.new) }
    ensures value { IfOk result (HoldsValue IsManifestText manifest_of name.now (D.state d.old)) }
    ensures rules { IfOk result (λ v. IfSome v (λ m. IsManifest (manifest_of m))) }
    ensures looks { OnlyReads (D.state d.old) (D.state d.new) }
    ensures cause { IsErrOf result LookFault.Disk → Rises (D.state d.old).faults (D.state d.new).faults }
{
    match look_at_pair(alloc, d, name, found)? {
        Some(Stored(manifest)) => Ok(Some(manifest)),
        None => Ok(None),
    }
}
