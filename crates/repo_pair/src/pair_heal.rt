// Reads a pair, and mends its members.
ghost use Rattle.std.specs.Prelude.{◌≡◌, ◌≤◌, Some, None, true, false, IfOk, IfErr, IfSome, IsSome, OnOk, IsErrOf, length};
ghost use Rattle.base_devices.specs.States.{CallsProperly, OnlyReads};
ghost use Rattle.base_devices.specs.Content.{Name};
ghost use Rattle.base_devices.specs.Crash.{IsTemporary};
ghost use Rattle.base_devices.specs.Cause.{Rises};
ghost use Rattle.base_disk.specs.Store.{LiesIn, ChangesOnly};
ghost use Rattle.base_disk.specs.Replacements.{ChangesTwo};
ghost use Rattle.base_model.specs.InfoText.{info_text};
ghost use Rattle.base_model.specs.Pair.{PairIs};
ghost use Rattle.repo_pair.specs.Causes.{IfRefused, PairFails};
ghost use Rattle.repo_pair.specs.Member.{IsMemberName, IsOfPair, KeepsMember, KeepsMembers};
ghost use Rattle.repo_pair.specs.Writes.{HealsBoth, HealsNow, OnlyRead, HealsMember, HealsMemberNow, HoldsBoth, HealsToText, HealsToTextNow, OnlyReadsWithout};

use crate::fault::{InfoFault, SaveFault};
use crate::members::{copy_name, temporary_name};
use crate::pair_load::{load_pair, read_bytes};
use crate::pair_save::text_of;
use base_devices::Disk;
use base_disk::replace;
use repo_info::{Info, ReadInfo};
use std::alloc::Global;

// Whether the member has these bytes.
fn holds<D: Disk>(alloc: Global, d: &mut D, name: &str, text: &[u8]) -> Result<bool, SaveFault>
    ensures held { IfOk result
        (λ b. b ≡ true → IfSome (D.state d.old).view.now (λ f. f name.now ≡ Some text.now)) }
    ensures looks { OnlyReads (D.state d.old) (D.state d.new) }
    ensures cause { IsErrOf result SaveFault.Disk → Rises (D.state d.old).faults (D.state d.new).faults }
{
    match read_bytes(alloc, d, name, text.len() as u64)? {
        Ok(bytes) => Ok(bytes.as_slice() == text),
        Err(_) => Ok(false),
    }
}

// Gives the member these bytes, where it doesn't have them.
fn heal_member<D: Disk>(
    alloc: Global,
    d: &mut D,
    temporary: &str,
    name: &str,
    text: &[u8],
) -> Result<(), SaveFault>
    requires folder { (folder : Name) × LiesIn folder temporary.now × LiesIn folder name.now }
    requires temporary { IsTemporary temporary.now }
    requires lasting { ¬ IsTemporary name.now }
    ensures crash { HealsMember name.now text.now (D.state d.old) (D.state d.new) }
    ensures now_part { HealsMemberNow name.now text.now (D.state d.old) (D.state d.new) }
    ensures healed_pair { OnOk result (IfSome (D.state d.new).view.now (λ f. f name.now ≡ Some text.now)) }
    // No crash removes it.
    ensures lasts { OnOk result (KeepsMember name.now (D.state d.old).view (D.state d.new).view) }
    ensures unknown { (D.state d.old).view.now ≡ None → (D.state d.new).view.now ≡ None }
    ensures only { ChangesTwo temporary.now name.now (D.state d.old) (D.state d.new) }
    ensures frame { CallsProperly (D.state d.old) (D.state d.new) }
    ensures cause { IsErrOf result SaveFault.Disk → Rises (D.state d.old).faults (D.state d.new).faults }
{
    if holds(alloc, d, name, text)? {
        return Ok(());
    }
    replace(alloc, d, temporary, name, text)?;
    Ok(())
}

// Gives each member the text, where it doesn't have it, the main one first.
fn heal_both<D: Disk>(alloc: Global, d: &mut D, name: &str, text: &[u8]) -> Result<(), SaveFault>
    requires { IsMemberName name.now }
    ensures crash { HealsBoth name.now text.now (D.state d.old).view (D.state d.new).view }
    ensures now_part { HealsNow name.now text.now (D.state d.old).view (D.state d.new).view }
    ensures healed_pair { OnOk result (HoldsBoth name.now text.now (D.state d.new)) }
    ensures lasts { OnOk result (KeepsMembers name.now (D.state d.old).view (D.state d.new).view) }
    ensures only { ChangesOnly (IsOfPair name.now) (D.state d.old).view (D.state d.new).view }
    ensures frame { CallsProperly (D.state d.old) (D.state d.new) }
    ensures cause { IsErrOf result SaveFault.Disk → Rises (D.state d.old).faults (D.state d.new).faults }
{
    let copy = copy_name(alloc, name)?;
    let temporary = temporary_name(alloc, name)?;
    heal_member(alloc, d, temporary.as_str(), name, text)?;
    heal_member(alloc, d, temporary.as_str(), copy.as_str(), text)
}

/// Gives each member the text of the value, where it doesn't have it, the main one first.
pub fn heal_members<D: Disk, I: Info>(
    alloc: Global,
    d: &mut D,
    name: &str,
    value: &I,
) -> Result<(), SaveFault>
    requires named { IsMemberName name.now }
    requires valid { I.is_valid value.now }
    ensures crash { HealsBoth name.now (info_text (I.sections value.now)) (D.state d.old).view (D.state d.new).view }
    ensures now_part { HealsNow name.now (info_text (I.sections value.now)) (D.state d.old).view (D.state d.new).view }
    ensures healed_pair { OnOk result (HoldsBoth name.now (info_text (I.sections value.now)) (D.state d.new)) }
    ensures lasts { OnOk result (KeepsMembers name.now (D.state d.old).view (D.state d.new).view) }
    ensures only { ChangesOnly (IsOfPair name.now) (D.state d.old).view (D.state d.new).view }
    ensures frame { CallsProperly (D.state d.old) (D.state d.new) }
    ensures cause { IsErrOf result SaveFault.Disk → Rises (D.state d.old).faults (D.state d.new).faults }
{
    let text = text_of(alloc, value)?;
    heal_both(alloc, d, name, &text)
}

/// The value of the pair. Each member that isn't its text is written anew, the main one first.
pub fn heal_pair<D: Disk, I: ReadInfo>(alloc: Global, d: &mut D, name: &str) -> Result<I, InfoFault>
    requires named { IsMemberName name.now }
    ensures found { IfOk result (λ v. IfSome (D.state d.old).view.now (λ f. PairIs I.IsText f name.now (I.value v))) }
    ensures valid { IfOk result (λ v. I.is_valid v) }
    ensures within { IfOk result (λ v. length (I.text (I.value v)) ≤ I.limit) }
    ensures healed { IfOk result (λ v. HoldsBoth name.now (I.text (I.value v)) (D.state d.new)) }
    // No crash removes them.
    ensures lasts { OnOk result (KeepsMembers name.now (D.state d.old).view (D.state d.new).view) }
    ensures now_part { HealsToTextNow I.IsText I.text name.now (D.state d.old) (D.state d.new) }
    ensures crash { HealsToText I.IsText I.text name.now (D.state d.old) (D.state d.new) }
    ensures refused { IfErr result (λ e. IfRefused e (OnlyRead (D.state d.old).view (D.state d.new).view)) }
    // Where the pair has no value, only was read.
    ensures idle { OnlyReadsWithout I.IsText name.now (D.state d.old) (D.state d.new) }
    ensures known { IsSome (D.state d.old).view.now → IsSome (D.state d.new).view.now }
    ensures only { ChangesOnly (IsOfPair name.now) (D.state d.old).view (D.state d.new).view }
    ensures frame { CallsProperly (D.state d.old) (D.state d.new) }
    ensures cause { IfErr result (PairFails I.IsText I.IsForm I.limit name.now (D.state d.old) (D.state d.new)) }
{
    let value = load_pair::<D, I>(alloc, d, name)?;
    heal_members(alloc, d, name, &value)?;
    Ok(value)
}
