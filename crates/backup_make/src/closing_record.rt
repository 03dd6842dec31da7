// What is saved of a backup once its jobs are done.
ghost use Rattle.std.specs.Prelude.{◌≡◌, ◌≤◌, length, option_map, string_bytes, IfOk, IfErr};
ghost use Rattle.base_model.specs.InfoText.{info_text};
ghost use Rattle.base_model.specs.InfoFiles.{backup_sections, info_limit, IsBackupInfo};
ghost use Rattle.base_model.specs.ManifestText.{IsManifest};
ghost use Rattle.base_model.specs.Values.{backup_info_of, file_entry_of, manifest_of};
ghost use Rattle.backup_record.specs.Faults.{HasControl, RecordFails};
ghost use Rattle.backup_record.specs.Recorded.{ExtendsList};
ghost use Rattle.backup_make.specs.Closing.{IsLabelOf, PreparesClosed, PreparingFails, RecordsClosed};
ghost use Rattle.backup_make.specs.Draft.{list_in, main_of, files_with};
ghost use Rattle.backup_make.specs.Faults.{ListFails};
ghost use Rattle.backup_make.specs.Online.{label_entry};
ghost use Rattle.backup_make.specs.Staged.{IsClosed, closed_draft, closed_ends};

use crate::backup_close::Closed;
use crate::draft::Draft;
use crate::draft_jobs::Fetched;
use crate::fault::MakeFault;
use crate::online::Online;
use backup_record::{Head, Record, RecordFault, places_of, record_of, went};
use base_model::{BackupInfo, FileEntry, Manifest, WalPart};
use base_text::Sum;
use repo_info::Info;
use repo_ini::write_info_text;
use repo_stanza::backup_info_name;
use std::alloc::{AllocError, Global};

/// The texts of a stanza's list have at most 64 MiB.
const LIST_LIMIT: u64 = 67_108_864;

/// What is saved of a backup: its manifest, and at this name the text of the stanza's list with it.
#[derive(Drop)]
pub(crate) struct Prepared {
    pub(crate) manifest: Manifest,
    pub(crate) main: String,
    pub(crate) text: Vec<u8>,
}

// The text of the stanza's list.
fn text_of(alloc: Global, list: &BackupInfo) -> Result<Vec<u8>, MakeFault>
    requires { IsBackupInfo (backup_info_of list.now) }
    ensures text { IfOk result (λ text. text.items ≡ info_text (backup_sections (backup_info_of list.now))) }
    ensures within { IfOk result (λ text. length text.items ≤ info_limit) }
    ensures fault { IfErr result (λ e. ListFails e (length (info_text (backup_sections (backup_info_of list.now))))) }
{
    let parts = list.parts(alloc)?;
    let text = write_info_text(alloc, &parts)?;
    let length = text.len() as u64;
    if length > LIST_LIMIT {
        return Err(MakeFault::ListTooLong { length });
    }
    Ok(text)
}

// The label file in the manifest of a backup that stopped in this second.
fn label_entry(alloc: Global, text: &str, stop: u64) -> Result<FileEntry, AllocError>
    ensures { IfOk result (λ e. file_entry_of e ≡ label_entry text.now stop) }
{
    Ok(FileEntry {
        path: String::from_str(alloc, "backup_label")?,
        size: text.len() as u64,
        time: stop,
        sum: Sum::of(text.as_bytes()),
        reference: None,
        bundle: None,
    })
}

// The same, where a server ran.
fn label_in(
    alloc: Global,
    online: &Option<Online>,
    stop: u64,
) -> Result<Option<FileEntry>, AllocError>
    ensures { IfOk result (IsLabelOf online.now stop) }
{
    match online {
        Some(online) => Ok(Some(label_entry(alloc, &online.label_file, stop)?)),
        None => Ok(None),
    }
}

// The part of the log, where a server ran.
fn part_of(online: &Option<Online>) -> Option<WalPart>
    ensures { result ≡ option_map (λ x. x.wal) online.now }
{
    match online {
        Some(online) => Some(online.wal),
        None => None,
    }
}

// The record of a backup.
fn record_in(alloc: Global, closed: Closed<'_>) -> Result<Record, RecordFault>
    requires { IsClosed closed }
    ensures manifest { IfOk result (RecordsClosed closed.entry) }
    ensures rules { IfOk result (λ r. IsManifest (manifest_of r.manifest)) }
    ensures info { IfOk result (ExtendsList (list_in (closed_draft closed.entry))) }
    ensures info_rules { IfOk result (λ r. IsBackupInfo (backup_info_of r.info)) }
    ensures control { IfOk result (λ r. HasControl (manifest_of r.manifest).files) }
    ensures fault { IfErr result (RecordFails (files_with (closed_draft closed.entry) (closed_ends closed.entry))) }
{
    let Closed {
        fetched,
        stop,
        online,
    } = closed;
    let Fetched { draft, ends } = fetched;
    let Draft {
        stanza: _,
        label,
        prior,
        old,
        start,
        cluster,
        choices,
        listing,
        plan,
        before,
    } = draft;
    let places = places_of(alloc, &ends)?;
    let ran = went(prior.unwrap_or(label), old, plan.singles, &ends, &places);
    let further = label_in(alloc, &online, stop)?;
    let head = Head {
        label,
        prior,
        start,
        stop,
        cluster,
        wal: part_of(&online),
        choices,
    };
    record_of(alloc, &head, &ran, listing, &plan.choices, further, before)
}

/// What is saved of a backup.
pub(crate) fn prepare(alloc: Global, closed: Closed<'_>) -> Result<Prepared, MakeFault>
    requires { IsClosed closed }
    ensures prepares { IfOk result (PreparesClosed closed.entry) }
    ensures main { IfOk result (λ p. string_bytes p.main ≡ main_of (closed_draft closed.entry)) }
    ensures fault { IfErr result (PreparingFails closed.entry) }
{
    let main = backup_info_name(alloc, closed.fetched.draft.stanza)?;
    let Record { manifest, info } = record_in(alloc, closed)?;
    let text = text_of(alloc, &info)?;
    Ok(Prepared {
        manifest,
        main,
        text,
    })
}
