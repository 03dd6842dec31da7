// The place of a file, and the job that reads it there.
ghost use Rattle.std.specs.Prelude.{◌≡◌, ℕ, List, true, IfOk, string_bytes};
ghost use Rattle.base_model.specs.InfoFiles.{IsLabel};
ghost use Rattle.base_model.specs.Place.{holder, place};
ghost use Rattle.base_model.specs.Values.{file_entry_of};
ghost use Rattle.base_model.specs.declared.labels.Label as labels;
ghost use Rattle.base_model.specs.StanzaName.{is_stanza};
ghost use Rattle.worker_protocol.specs.Frames.{FitsItem, FitsJob};
ghost use Rattle.worker_protocol.specs.Views.{item_of, job_of};
ghost use Rattle.restore_steps.specs.Sources.{IsEntry, file_name_by, bundle_name_by, source, reading};

use base_model::{FileEntry, Label};
use base_text::NoMemory;
use repo_names::label_text;
use std::alloc::{AllocError, Global};
use worker_protocol::{Item, Job, JobKind, Root};

// The label in whose folder the bytes lie.
fn holder(own: &Label, file: &FileEntry) -> Label
    ensures { result ≡ holder own.now (file_entry_of file.now) }
{
    file.reference.unwrap_or(*own)
}

fn file_name(alloc: Global, stanza: &str, label: &str, path: &str) -> Result<String, AllocError>
    ensures { IfOk result (λ name. string_bytes name ≡ file_name_by stanza.now label.now path.now) }
{
    format!(in alloc; "backup/{stanza}/{label}/pg_data/{path}")
}

fn bundle_name(alloc: Global, stanza: &str, label: &str, number: u32) -> Result<String, AllocError>
    ensures { IfOk result (λ name. string_bytes name ≡ bundle_name_by stanza.now label.now number) }
{
    format!(in alloc; "backup/{stanza}/{label}/bundle/{number}")
}

// The name at which the bytes lie.
fn source_name(
    alloc: Global,
    stanza: &str,
    own: &Label,
    file: &FileEntry,
) -> Result<String, NoMemory>
    requires own { IsLabel own.now }
    requires entry { IsEntry (file_entry_of file.now) }
    ensures { IfOk result (λ name. string_bytes name ≡ (place stanza.now own.now (file_entry_of file.now)).0) }
{
    let label = label_text(alloc, &holder(own, file))?;
    match file.bundle {
        None => Ok(file_name(alloc, stanza, &label, &file.path)?),
        Some(bundle) => Ok(bundle_name(alloc, stanza, &label, bundle.number)?),
    }
}

// Where the bytes begin at that name.
fn source_start(file: &FileEntry) -> u64
    ensures { (stanza : List ℕ) (own : labels.Label) → result ≡ (place stanza own (file_entry_of file.now)).1 }
{
    match file.bundle {
        None => 0,
        Some(bundle) => bundle.at,
    }
}

/// The bytes of a file, as an item that a worker may read.
pub fn source_item(
    alloc: Global,
    stanza: &str,
    own: &Label,
    file: &FileEntry,
) -> Result<Item, NoMemory>
    requires stanza { is_stanza stanza.now ≡ true }
    requires own { IsLabel own.now }
    requires entry { IsEntry (file_entry_of file.now) }
    ensures item { IfOk result (λ i. item_of i ≡ source stanza.now own.now (file_entry_of file.now)) }
    ensures fits { IfOk result (λ i. FitsItem (item_of i)) }
{
    Ok(Item {
        root: Root::Repo,
        path: source_name(alloc, stanza, own, file)?,
        at: source_start(file),
        size: file.size,
    })
}

/// The job that reads the bytes of a file.
pub fn source_job(
    alloc: Global,
    stanza: &str,
    own: &Label,
    file: &FileEntry,
) -> Result<Job, NoMemory>
    requires stanza { is_stanza stanza.now ≡ true }
    requires own { IsLabel own.now }
    requires entry { IsEntry (file_entry_of file.now) }
    ensures job { IfOk result (λ j. job_of j ≡ reading stanza.now own.now (file_entry_of file.now)) }
    ensures fits { IfOk result (λ j. FitsJob (job_of j)) }
{
    let mut items = Vec::new(alloc);
    items.push(source_item(alloc, stanza, own, file)?)?;
    Ok(Job {
        kind: JobKind::Read,
        items,
    })
}
