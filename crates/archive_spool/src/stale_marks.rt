// Removes marks that are of no use any more.
ghost use Rattle.std.specs.List.{list_any};
ghost use Rattle.std.specs.Prelude.{◌≡◌, [], true, false, map, bytes_eq, IfOk, IfErr, IsErrOf, OnOk, string_bytes};
ghost use Rattle.base_devices.specs.Cause.{Rises};
ghost use Rattle.base_devices.specs.States.{CallsProperly};
ghost use Rattle.base_disk.specs.Fault.{IsDeviceFault};
ghost use Rattle.base_model.specs.Names.{receipt_name};
ghost use Rattle.archive_lookup.specs.Stored.{ChangesArchive};
ghost use Rattle.archive_spool.specs.Clearing.{IsStale, IsStaleAt, IsMarkAt, Clears, ClearsStale, LessensStale, RemovesStale, IsGoneIfStale, StaleAreGone};
ghost use Rattle.archive_spool.specs.Marks.{GivesMarks};

use crate::between::name_between;
use crate::names::receipt_name;
use base_devices::{Disk, Found};
use base_disk::StoreFault;
use base_model::ArchiveName;
use base_text::NoMemory;
use std::alloc::Global;

// The names of the receipts of these files.
fn receipts_of(alloc: Global, stanza: &str, ready: &[ArchiveName]) -> Result<Vec<String>, NoMemory>
    ensures { IfOk result
        (λ names. map string_bytes names.items ≡ map (receipt_name stanza.now) ready.now) }
{
    let mut names = Vec::new(alloc);
    for each in ready {
        names.push(receipt_name(alloc, stanza, each)?)?;
    }
    Ok(names)
}

fn is_among(name: &str, names: &[String]) -> bool
    ensures { result ≡ list_any (λ each. bytes_eq (string_bytes each) name.now) names.now }
{
    names.iter().any(|each| each.as_str() == name)
}

fn is_mark(name: &str, prefix: &str, end: &str) -> bool
    ensures is { result ≡ true → IsMarkAt prefix.now end.now name.now }
    ensures not { result ≡ false → ¬ IsMarkAt prefix.now end.now name.now }
{
    name_between(name.as_bytes(), prefix.as_bytes(), end.as_bytes()).is_some()
}

// Whether the mark is a refusal, or a receipt that isn't among these.
fn is_stale(name: &str, prefix: &str, receipts: &[String]) -> bool
    ensures is { result ≡ true → IsStaleAt prefix.now (map string_bytes receipts.now) name.now }
    ensures not { result ≡ false → ¬ IsStaleAt prefix.now (map string_bytes receipts.now) name.now }
{
    if is_mark(name, prefix, ".error") {
        return true;
    }
    if !is_mark(name, prefix, ".ok") {
        return false;
    }
    !is_among(name, receipts)
}

// Removes the name where it is stale.
fn clear_one<S: Disk>(
    spool: &mut S,
    name: &str,
    prefix: &str,
    receipts: &[String],
) -> Result<(), StoreFault>
    ensures gone { OnOk result (IsGoneIfStale prefix.now (map string_bytes receipts.now) name.now (S.state spool.new)) }
    ensures drops { LessensStale prefix.now (map string_bytes receipts.now) (S.state spool.old) (S.state spool.new) }
    ensures works { RemovesStale prefix.now (map string_bytes receipts.now) (S.state spool.old) (S.state spool.new) }
    ensures cause { IsErrOf result StoreFault.Disk → Rises (S.state spool.old).faults (S.state spool.new).faults }
    ensures refusals { IfErr result IsDeviceFault }
{
    if !is_stale(name, prefix, receipts) {
        return Ok(());
    }
    spool.remove(name)?;
    Ok(())
}

// Removes each of these that is stale.
fn clear_each<S: Disk>(
    spool: &mut S,
    found: &[Found],
    prefix: &str,
    receipts: &[String],
) -> Result<(), StoreFault>
    ensures gone { OnOk result
        (StaleAreGone prefix.now (map string_bytes receipts.now) found.now (S.state spool.new)) }
    ensures drops { LessensStale prefix.now (map string_bytes receipts.now) (S.state spool.old) (S.state spool.new) }
    ensures works { RemovesStale prefix.now (map string_bytes receipts.now) (S.state spool.old) (S.state spool.new) }
    ensures cause { IsErrOf result StoreFault.Disk → Rises (S.state spool.old).faults (S.state spool.new).faults }
    ensures refusals { IfErr result IsDeviceFault }
{
    for each in found {
        clear_one(spool, each.name.as_str(), prefix, receipts)?;
    }
    Ok(())
}

/// Removes each refusal, and each receipt of a file that isn't among these. It syncs nothing: a crash may leave
/// them.
pub fn clear_marks<S: Disk>(
    alloc: Global,
    spool: &mut S,
    stanza: &str,
    ready: &[ArchiveName],
) -> Result<(), StoreFault>
    ensures cleared { OnOk result (ClearsStale stanza.now ready.now (S.state spool.old) (S.state spool.new)) }
    ensures clears { Clears (IsStale stanza.now ready.now) (S.state spool.old).view.now (S.state spool.new).view.now }
    ensures marks { GivesMarks stanza.now [] (S.state spool.old).view (S.state spool.new).view }
    ensures only { ChangesArchive stanza.now (S.state spool.old).view (S.state spool.new).view }
    ensures frame { CallsProperly (S.state spool.old) (S.state spool.new) }
    ensures cause { IsErrOf result StoreFault.Disk → Rises (S.state spool.old).faults (S.state spool.new).faults }
    ensures refusals { IfErr result IsDeviceFault }
{
    let Ok(receipts) = receipts_of(alloc, stanza, ready) else {
        return Err(StoreFault::NoMemory);
    };
    let folder = format!(in alloc; "archive/{stanza}/out")?;
    let prefix = format!(in alloc; "{folder}/")?;
    let found = spool.names(alloc, folder.as_str())?;
    clear_each(spool, &found, prefix.as_str(), &receipts)
}
