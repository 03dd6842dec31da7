// Reads a pair.
ghost use Rattle.std.specs.Prelude.{◌≡◌, ◌≤◌, IfOk, IfErr, IfSome, IsErrOf, length};
ghost use Rattle.base_devices.specs.States.{OnlyReads};
ghost use Rattle.base_devices.specs.Cause.{Rises};
ghost use Rattle.base_model.specs.Names.{copy_of};
ghost use Rattle.base_model.specs.Pair.{PairIs};
ghost use Rattle.repo_pair.specs.Reading.{BytesAre, of_both, GivesOn};
ghost use Rattle.repo_pair.specs.Causes.{PairFails};

use crate::fault::{InfoFault, SaveFault};
use crate::members::copy_name;
use base_devices::Disk;
use base_disk::{StoreFault, read_whole};
use repo_info::{MemberFault, ReadInfo};
use std::alloc::Global;

// The bytes of a member, at most this many.
pub(crate) fn read_bytes<D: Disk>(
    alloc: Global,
    d: &mut D,
    name: &str,
    limit: u64,
) -> Result<Result<Vec<u8>, MemberFault>, SaveFault>
    ensures bytes { IfOk result (λ r. IfSome (D.state d.old).view.now (λ f. BytesAre limit (f name.now) r)) }
    ensures within { IfOk result (λ r. IfOk r (λ b. length b.items ≤ limit)) }
    ensures looks { OnlyReads (D.state d.old) (D.state d.new) }
    ensures cause { IsErrOf result SaveFault.Disk → Rises (D.state d.old).faults (D.state d.new).faults }
{
    match read_whole(alloc, d, name, limit) {
        Ok(Some(bytes)) => Ok(Ok(bytes)),
        Ok(None) => Ok(Err(MemberFault::Absent)),
        Err(StoreFault::TooLong { .. }) => Ok(Err(MemberFault::TooLong)),
        Err(StoreFault::Disk) => Err(SaveFault::Disk),
        Err(StoreFault::NoMemory) => Err(SaveFault::NoMemory),
    }
}

// The value of a member.
fn read_member<D: Disk, I: ReadInfo>(
    alloc: Global,
    d: &mut D,
    name: &str,
) -> Result<Result<I, MemberFault>, SaveFault>
    ensures gives { IfOk result
        (λ r. GivesOn I.IsText I.IsForm I.value I.limit (D.state d.old) name.now r) }
    ensures valid { IfOk result (λ r. IfOk r I.is_valid) }
    ensures within { IfOk result (λ r. IfOk r (λ v. length (I.text (I.value v)) ≤ I.limit)) }
    ensures looks { OnlyReads (D.state d.old) (D.state d.new) }
    ensures cause { IsErrOf result SaveFault.Disk → Rises (D.state d.old).faults (D.state d.new).faults }
{
    match read_bytes(alloc, d, name, I::limit())? {
        Ok(bytes) => Ok(I::read(alloc, &bytes)?),
        Err(fault) => Ok(Err(fault)),
    }
}

// The value of the copy of a member.
fn read_copy<D: Disk, I: ReadInfo>(
    alloc: Global,
    d: &mut D,
    name: &str,
) -> Result<Result<I, MemberFault>, SaveFault>
    ensures gives { IfOk result
        (λ r. GivesOn I.IsText I.IsForm I.value I.limit (D.state d.old) (copy_of name.now) r) }
    ensures valid { IfOk result (λ r. IfOk r I.is_valid) }
    ensures within { IfOk result (λ r. IfOk r (λ v. length (I.text (I.value v)) ≤ I.limit)) }
    ensures looks { OnlyReads (D.state d.old) (D.state d.new) }
    ensures cause { IsErrOf result SaveFault.Disk → Rises (D.state d.old).faults (D.state d.new).faults }
{
    let copy = copy_name(alloc, name)?;
    read_member(alloc, d, copy.as_str())
}

// The fault of a pair whose members have these.
fn of_both(main: MemberFault, copy: MemberFault) -> InfoFault
    ensures { result ≡ of_both main copy }
{
    match (main, copy) {
        (MemberFault::Absent, MemberFault::Absent) => InfoFault::Missing,
        (main, copy) => InfoFault::Damaged { main, copy },
    }
}

/// The value of the main member where that is the text of one, else of the copy.
pub fn load_pair<D: Disk, I: ReadInfo>(alloc: Global, d: &mut D, name: &str) -> Result<I, InfoFault>
    ensures found { IfOk result (λ v. IfSome (D.state d.old).view.now (λ f. PairIs I.IsText f name.now (I.value v))) }
    ensures valid { IfOk result (λ v. I.is_valid v) }
    ensures within { IfOk result (λ v. length (I.text (I.value v)) ≤ I.limit) }
    ensures looks { OnlyReads (D.state d.old) (D.state d.new) }
    ensures cause { IfErr result (PairFails I.IsText I.IsForm I.limit name.now (D.state d.old) (D.state d.new)) }
{
    let main = match read_member(alloc, d, name)? {
        Ok(value) => return Ok(value),
        Err(fault) => fault,
    };
    match read_copy(alloc, d, name)? {
        Ok(value) => Ok(value),
        Err(copy) => Err(of_both(main, copy)),
    }
}
