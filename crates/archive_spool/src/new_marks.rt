// Puts a mark in the spool.
ghost use Rattle.std.specs.Prelude.{[], IfOk, IfErr, OnOk, IsErrOf, string_bytes};
ghost use Rattle.base_devices.specs.States.{CallsProperly};
ghost use Rattle.base_devices.specs.Cause.{Rises};
ghost use Rattle.base_disk.specs.Fault.{IsDeviceFault};
ghost use Rattle.base_model.specs.Names.{receipt_name};
ghost use Rattle.archive_lookup.specs.Turns.{refusal_name};
ghost use Rattle.archive_spool.specs.Marks.{receipt_text, refusal_text, IsMarkAs, GivesMarks, Reports, ChangesMark, MayConfirm, Confirms, GivesOneReceipt, MayReport};

use crate::mark_place::{Mark, place};
use crate::names::{receipt_name, receipt_text, refusal_name, refusal_text, temporary_name};
use base_devices::Disk;
use base_disk::StoreFault;
use base_model::ArchiveName;
use base_text::{NoMemory, Sum};
use std::alloc::Global;

fn receipt_of(alloc: Global, stanza: &str, name: &ArchiveName, sum: &Sum) -> Result<Mark, NoMemory>
    ensures { IfOk result (IsMarkAs stanza.now (receipt_name stanza.now name.now) (receipt_text sum.now.0)) }
{
    Ok(Mark {
        temporary: temporary_name(alloc, stanza)?,
        name: receipt_name(alloc, stanza, name)?,
        text: receipt_text(alloc, sum)?,
    })
}

fn refusal_of(
    alloc: Global,
    stanza: &str,
    name: &ArchiveName,
    code: u32,
    line: &str,
) -> Result<Mark, NoMemory>
    ensures { IfOk result (IsMarkAs stanza.now (refusal_name stanza.now name.now) (refusal_text code line.now)) }
{
    Ok(Mark {
        temporary: temporary_name(alloc, stanza)?,
        name: refusal_name(alloc, stanza, name)?,
        text: refusal_text(alloc, code, line)?,
    })
}

/// Puts the receipt that a file was stored whose bytes have this sum. A crash may still leave what its name had before.
pub fn put_receipt<S: Disk>(
    alloc: Global,
    spool: &mut S,
    stanza: &str,
    name: &ArchiveName,
    sum: &Sum,
) -> Result<(), StoreFault>
    // At each moment it is the only receipt that is new, whole or not at all.
    ensures marks { GivesOneReceipt stanza.now name.now sum.now.0 (S.state spool.old) (S.state spool.new) }
    ensures part { MayConfirm stanza.now name.now sum.now.0 (S.state spool.old) (S.state spool.new) }
    ensures whole { OnOk result
        (Confirms stanza.now name.now sum.now.0 (S.state spool.old) (S.state spool.new)) }
    ensures only { ChangesMark stanza.now (receipt_name stanza.now name.now) (S.state spool.old) (S.state spool.new) }
    ensures frame { CallsProperly (S.state spool.old) (S.state spool.new) }
    ensures cause { IsErrOf result StoreFault.Disk → Rises (S.state spool.old).faults (S.state spool.new).faults }
    ensures refusals { IfErr result IsDeviceFault }
{
    let Ok(mark) = receipt_of(alloc, stanza, name, sum) else {
        return Err(StoreFault::NoMemory);
    };
    place(alloc, spool, &mark)
}

/// Puts the refusal of a file, with its status and its line. A crash may still leave what its name had before.
pub fn put_refusal<S: Disk>(
    alloc: Global,
    spool: &mut S,
    stanza: &str,
    name: &ArchiveName,
    code: u32,
    line: &str,
) -> Result<(), StoreFault>
    // At no moment is a receipt new.
    ensures marks { GivesMarks stanza.now [] (S.state spool.old).view (S.state spool.new).view }
    ensures part { MayReport stanza.now name.now code line.now (S.state spool.old) (S.state spool.new) }
    ensures whole { OnOk result
        (Reports stanza.now name.now code line.now (S.state spool.old) (S.state spool.new)) }
    ensures only { ChangesMark stanza.now (refusal_name stanza.now name.now) (S.state spool.old) (S.state spool.new) }
    ensures frame { CallsProperly (S.state spool.old) (S.state spool.new) }
    ensures cause { IsErrOf result StoreFault.Disk → Rises (S.state spool.old).faults (S.state spool.new).faults }
    ensures refusals { IfErr result IsDeviceFault }
{
    let Ok(mark) = refusal_of(alloc, stanza, name, code, line) else {
        return Err(StoreFault::NoMemory);
    };
    place(alloc, spool, &mark)
}
