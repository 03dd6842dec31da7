// What the list of backups contradicts in itself.
ghost use Rattle.std.specs.Prelude.{◌≡◌, false, IsTrue, OnOk, map};
ghost use Rattle.base_model.specs.InfoFiles.{IsLabel};
ghost use Rattle.base_model.specs.Text.{In};
ghost use Rattle.base_model.specs.Values.{entry_of, Entry as Listed};
ghost use Rattle.cmd_verify.specs.Contradicting.{AddsEntries, AddsEntry, AddsPrior};
ghost use Rattle.cmd_verify.specs.Contradictions.{HasOtherPrior, IsOtherPrior};

use crate::findings::contradictions::contradiction;
use crate::findings::entries::is_same_prior;
use crate::findings::finding::Finding;
use crate::findings::pairs::manifest_name;
use base_model::Entry;
use base_text::NoMemory;
use std::alloc::Global;

// Whether the other is the entry's prior, and of another cluster.
fn is_other_prior(entry: &Entry, other: &Entry) -> bool
    ensures yes { IsTrue result → IsOtherPrior (entry_of entry.now) (entry_of other.now) }
    ensures no { result ≡ false → ¬ IsOtherPrior (entry_of entry.now) (entry_of other.now) }
{
    is_same_prior(&entry.prior, &Some(other.label)) && other.db != entry.db
}

// Whether the entry's prior is of another cluster.
fn has_other_prior(entries: &[Entry], entry: &Entry) -> bool
    ensures yes { IsTrue result → HasOtherPrior (map entry_of entries.now) (entry_of entry.now) }
    ensures no { result ≡ false → ¬ HasOtherPrior (map entry_of entries.now) (entry_of entry.now) }
{
    for other in entries {
        if is_other_prior(entry, other) {
            return true;
        }
    }
    false
}

// That the entry's prior is of another cluster.
fn tell_prior(
    alloc: Global,
    name: &str,
    entries: &[Entry],
    entry: &Entry,
    found: &mut Vec<Finding>,
) -> Result<(), NoMemory>
    ensures { OnOk result (AddsPrior name.now entries.now entry.now found.old found.new) }
{
    if has_other_prior(entries, entry) {
        found.push(contradiction(alloc, name, "prior of another cluster")?)?;
    }
    Ok(())
}

// What an entry contradicts in its list.
fn tell_entry(
    alloc: Global,
    stanza: &str,
    entries: &[Entry],
    entry: &Entry,
    found: &mut Vec<Finding>,
) -> Result<(), NoMemory>
    requires { IsLabel entry.now.label }
    ensures { OnOk result (AddsEntry stanza.now entries.now entry.now found.old found.new) }
{
    let name = manifest_name(alloc, stanza, &entry.label)?;
    tell_prior(alloc, name.as_str(), entries, entry, found)?;
    Ok(())
}

/// Reports what the entries contradict in their list: whose prior is of another cluster.
pub(crate) fn tell_entries(
    alloc: Global,
    stanza: &str,
    entries: &[Entry],
    found: &mut Vec<Finding>,
) -> Result<(), NoMemory>
    requires { (e : Listed) → In e (map entry_of entries.now) → IsLabel e.label }
    ensures { OnOk result (AddsEntries stanza.now entries.now found.old found.new) }
{
    for entry in entries {
        tell_entry(alloc, stanza, entries, entry, found)?;
    }
    Ok(())
}
