// The settings of a recovery.
ghost use Rattle.std.specs.List.{list_any, flat_map};
ghost use Rattle.std.specs.Prelude.{◌≡◌, bytes_eq, ◌<◌, ◌≤◌, ◌++◌, ◌^◌, [], ◌∷◌, true, map, vec_len, IfOk, IfErr, IfSome, OnOk};
ghost use Rattle.base_devices.specs.Cause.{HasCause};
ghost use Rattle.base_devices.specs.Order.{are_in_order};
ghost use Rattle.base_model.specs.InfoFiles.{IsLabel};
ghost use Rattle.base_model.specs.ManifestText.{IsManifest};
ghost use Rattle.restore_make.specs.Options.{log_fetch_of, recovery_of};
ghost use Rattle.restore_make.specs.Recovered.{conf_path, signal_path, target_names, sets_target, out_of_force, without_targets, line_end, settings_block};
ghost use Rattle.restore_make.specs.Recovered.Recovery.{FromArchive};
ghost use Rattle.base_model.specs.Text.{In};
ghost use Rattle.base_model.specs.Values.{FileEntry as Entry, file_entry_of, manifest_of};
ghost use Rattle.base_model.specs.StanzaName.{is_stanza};
ghost use Rattle.worker_pool.specs.Pools.{links_in, LeavesLinks};
ghost use Rattle.worker_pool.specs.Run.{AreReady};
ghost use Rattle.restore_steps.specs.Clearing.{control_path, HasFile, StaysNone};
ghost use Rattle.restore_steps.specs.Sources.{IsEntry};
ghost use Rattle.restore_make.specs.Settings.{IsFirstOf, ShowsWrongItem};
ghost use Rattle.restore_make.specs.Restorations.{ChangesSettings, ReadsBytes, ReadsConf, ReadsFail, AddsFetch, SettlesAll, FailsToRestore};

use crate::candidates::{Candidate, place_of};
use crate::digesting::named;
use crate::fault::FillFault;
use crate::options::{CONF, LogFetch, Recovery, Restoration, signal_path};
use base_devices::{DataFolder, DeviceError, Link, Scheduler};
use base_model::{FileEntry, Label};
use repo_ini::{cut_at, next_piece, trim_end, trim_start};
use restore_steps::source_job;
use std::alloc::{AllocError, Global};
use worker_pool::{Holder, Pool, ReadItem, is_equal, run_jobs};
use worker_protocol::ItemEnd;

// The bytes that were read of the file, or why they aren't the entry's.
fn checked(alloc: Global, file: &FileEntry, ended: &[ReadItem]) -> Result<Vec<u8>, FillFault>
    ensures right { IfOk result (λ bytes. IsFirstOf (file_entry_of file.now) ended.now bytes.items) }
    ensures wrong { IfErr result (λ e. ShowsWrongItem (file_entry_of file.now) ended.now e) }
{
    let [first, ..] = ended else {
        return Err(FillFault::NoMemory);
    };
    if is_equal(file, &Some(first.how)) {
        let mut bytes = Vec::new(alloc);
        bytes.extend_from_slice(&first.bytes)?;
        return Ok(bytes);
    }
    match first.how {
        ItemEnd::Whole { sum, .. } => Err(FillFault::FileDamaged {
            path: file.path.clone()?,
            known: file.sum,
            found: sum,
        }),
        ItemEnd::Vanished => Err(FillFault::NoMemory),
    }
}

// The bytes of a file of the backup, as a worker reads them: of an empty one there are none to read.
fn read_file<L: Link, U: Scheduler>(
    alloc: Global,
    stanza: &str,
    own: &Label,
    file: &FileEntry,
    pool: &mut Pool<L, U>,
) -> Result<Vec<u8>, FillFault>
    requires few { vec_len pool.old.links < 2 ^ 32 }
    requires ready { AreReady (links_in L.link_state pool.old) }
    requires stanza { is_stanza stanza.now ≡ true }
    requires own { IsLabel own.now }
    requires entry { IsEntry (file_entry_of file.now) }
    ensures bytes { IfOk result
        (λ bytes. ReadsBytes stanza.now own.now file.now L.link_state pool.old bytes.items) }
    ensures left { OnOk result (LeavesLinks L.link_state pool.old pool.new) }
    ensures fault { ReadsFail result stanza.now own.now (file_entry_of file.now ∷ []) L.link_state pool.old pool.new }
{
    if file.size == 0 {
        return Ok(Vec::new(alloc));
    }
    let mut jobs = Vec::new(alloc);
    jobs.push(source_job(alloc, stanza, own, file)?)?;
    let mut keep = Holder::new(alloc, &jobs)?;
    match run_jobs(alloc, &jobs, pool, &mut keep, &mut ()) {
        Ok(()) => checked(alloc, file, keep.ended(0)),
        Err(fault) => Err(named(alloc, &[Candidate { place: 0, file }], fault)?),
    }
}

// What the backup's settings file holds: nothing where the backup has none.
fn read_conf<L: Link, U: Scheduler>(
    alloc: Global,
    stanza: &str,
    own: &Label,
    files: &[FileEntry],
    pool: &mut Pool<L, U>,
) -> Result<Vec<u8>, FillFault>
    requires few { vec_len pool.old.links < 2 ^ 32 }
    requires ready { AreReady (links_in L.link_state pool.old) }
    requires stanza { is_stanza stanza.now ≡ true }
    requires own { IsLabel own.now }
    requires entries { (e : Entry) → In e (map file_entry_of files.now) → IsEntry e }
    requires order { are_in_order (map (λ e. e.path) (map file_entry_of files.now)) ≡ true }
    ensures conf { IfOk result (λ bytes. ReadsConf stanza.now own.now files.now L.link_state pool.old bytes.items) }
    ensures left { OnOk result (LeavesLinks L.link_state pool.old pool.new) }
    ensures fault { ReadsFail result stanza.now own.now (map file_entry_of files.now) L.link_state pool.old pool.new }
{
    match place_of(files, CONF) {
        Some(place) => read_file(alloc, stanza, own, &files[place], pool),
        None => Ok(Vec::new(alloc)),
    }
}

// Adds a newline at the end, where there is something without one.
fn end_line(text: &mut Vec<u8>) -> Result<(), AllocError>
    ensures { OnOk result (text.new.items ≡ line_end text.old.items) }
{
    if let Some(last) = text.last() {
        if *last != b'\n' {
            text.push(b'\n')?;
        }
    }
    Ok(())
}

// Whether it is the name of a setting of how far a server recovers (PostgreSQL manual, "Recovery Target").
fn is_target(name: &[u8]) -> bool
    ensures { result ≡ list_any (λ n. bytes_eq n name.now) target_names }
{
    b"recovery_target".as_slice() == name
        || b"recovery_target_action".as_slice() == name
        || b"recovery_target_inclusive".as_slice() == name
        || b"recovery_target_lsn".as_slice() == name
        || b"recovery_target_name".as_slice() == name
        || b"recovery_target_time".as_slice() == name
        || b"recovery_target_timeline".as_slice() == name
        || b"recovery_target_xid".as_slice() == name
}

// Whether the line is a setting of how far a server recovers.
fn sets_target(line: &[u8]) -> bool
    ensures { result ≡ sets_target line.now }
{
    match cut_at(b'=', line) {
        Some((name, _)) => is_target(trim_start(trim_end(name))),
        None => false,
    }
}

// Adds a line: as a comment, where it says how far a server recovers.
fn add_line(text: &mut Vec<u8>, line: &[u8]) -> Result<(), AllocError>
    ensures { OnOk result (text.new.items ≡ text.old.items ++ out_of_force line.now) }
{
    if !sets_target(line) {
        return text.extend_from_slice(line);
    }
    text.extend_from_slice(b"# Removed by pgBackRest restore # ")?;
    text.extend_from_slice(line)?;
    Ok(())
}

// The settings without those of an earlier recovery, which a server never removes.
fn without_targets(alloc: Global, held: &[u8]) -> Result<Vec<u8>, AllocError>
    ensures { IfOk result (λ text. text.items ≡ without_targets held.now) }
{
    let mut text = Vec::new(alloc);
    let (first, mut rest) = next_piece(held);
    add_line(&mut text, first)?;
    while let Some(left) = rest {
        let (line, after) = next_piece(left);
        text.push(b'\n')?;
        add_line(&mut text, line)?;
        rest = after;
    }
    Ok(text)
}

// Adds lines, each with its newline.
fn add_lines(text: &mut Vec<u8>, lines: &[Vec<u8>]) -> Result<(), AllocError>
    ensures { OnOk result (text.new.items
        ≡ text.old.items ++ flat_map (λ line. line ++ 10 ∷ []) (map (λ line. line.items) lines.now)) }
{
    for line in lines {
        text.extend_from_slice(line)?;
        text.push(b'\n')?;
    }
    Ok(())
}

// The lines that say how a server fetches the log, and how far it recovers.
fn block(alloc: Global, fetch: &LogFetch<'_>) -> Result<Vec<u8>, AllocError>
    ensures { IfOk result (λ lines. lines.items ≡ settings_block (log_fetch_of fetch.now)) }
{
    let mut lines = Vec::new(alloc);
    lines.extend_from_slice(b"# Recovery settings generated by pgBackRest restore\n")?;
    lines.extend_from_slice(b"restore_command = '")?;
    lines.extend_from_slice(fetch.command)?;
    lines.extend_from_slice(b"'\n")?;
    add_lines(&mut lines, fetch.settings)?;
    Ok(lines)
}

// The settings after what the file held.
fn with_block(alloc: Global, held: &[u8], fetch: &LogFetch<'_>) -> Result<Vec<u8>, AllocError>
    ensures { IfOk result
        (λ text. text.items ≡ line_end (without_targets held.now) ++ settings_block (log_fetch_of fetch.now)) }
{
    let mut text = without_targets(alloc, held)?;
    end_line(&mut text)?;
    let lines = block(alloc, fetch)?;
    text.extend_from_slice(&lines)?;
    Ok(text)
}

// Writes the settings, and the file that asks a server to recover.
fn write_settings<T: DataFolder>(
    tree: &mut T,
    text: &[u8],
    fetch: &LogFetch<'_>,
) -> Result<(), DeviceError>
    ensures conf { OnOk result (IfSome (T.state tree.new).nodes (HasFile conf_path text.now)) }
    ensures signal { OnOk result (IfSome (T.state tree.new).nodes (HasFile (signal_path (log_fetch_of fetch.now)) [])) }
    ensures others { ChangesSettings (FromArchive (log_fetch_of fetch.now)) (T.state tree.old) (T.state tree.new) }
    ensures proper { (T.state tree.new).faulty_calls ≡ (T.state tree.old).faulty_calls }
    ensures opened { (T.state tree.new).opened ≡ (T.state tree.old).opened }
    ensures cause { HasCause (T.state tree.old).faults (T.state tree.new).faults result }
{
    tree.begin(CONF)?;
    tree.append(CONF, text)?;
    tree.begin(signal_path(fetch))
}

// Adds the settings by which a server fetches the log.
fn add_fetch<T: DataFolder, L: Link, U: Scheduler>(
    alloc: Global,
    what: &Restoration<'_>,
    fetch: &LogFetch<'_>,
    pool: &mut Pool<L, U>,
    tree: &mut T,
) -> Result<(), FillFault>
    requires few { vec_len pool.old.links < 2 ^ 32 }
    requires ready { AreReady (links_in L.link_state pool.old) }
    requires stanza { is_stanza what.now.stanza.now ≡ true }
    requires rules { IsManifest (manifest_of what.now.manifest.now) }
    ensures added { OnOk result
        (AddsFetch what.now (log_fetch_of fetch.now) L.link_state pool.old (T.state tree.new)) }
    ensures others { ChangesSettings (FromArchive (log_fetch_of fetch.now)) (T.state tree.old) (T.state tree.new) }
    ensures left { OnOk result (LeavesLinks L.link_state pool.old pool.new) }
    ensures proper { (T.state tree.new).faulty_calls ≡ (T.state tree.old).faulty_calls }
    ensures opened { (T.state tree.new).opened ≡ (T.state tree.old).opened }
    ensures later { (T.state tree.old).faults ≤ (T.state tree.new).faults }
    ensures fault { IfErr result (FailsToRestore what.now L.link_state pool.old pool.new T.state tree.old tree.new) }
{
    let held = read_conf(
        alloc,
        what.stanza,
        &what.manifest.label,
        &what.manifest.files,
        pool,
    )?;
    let text = with_block(alloc, &held, fetch)?;
    write_settings(tree, &text, fetch)?;
    Ok(())
}

/// Adds the settings of the recovery, where there is one.
pub(crate) fn add_settings<T: DataFolder, L: Link, U: Scheduler>(
    alloc: Global,
    what: &Restoration<'_>,
    pool: &mut Pool<L, U>,
    tree: &mut T,
) -> Result<(), FillFault>
    requires few { vec_len pool.old.links < 2 ^ 32 }
    requires ready { AreReady (links_in L.link_state pool.old) }
    requires stanza { is_stanza what.now.stanza.now ≡ true }
    requires rules { IsManifest (manifest_of what.now.manifest.now) }
    ensures settles { OnOk result (SettlesAll what.now L.link_state pool.old T.state tree.old tree.new) }
    ensures others { ChangesSettings (recovery_of what.now.options.recovery) (T.state tree.old) (T.state tree.new) }
    ensures control { StaysNone control_path (T.state tree.old).nodes (T.state tree.new).nodes }
    ensures left { OnOk result (LeavesLinks L.link_state pool.old pool.new) }
    ensures proper { (T.state tree.new).faulty_calls ≡ (T.state tree.old).faulty_calls }
    ensures opened { (T.state tree.new).opened ≡ (T.state tree.old).opened }
    ensures later { (T.state tree.old).faults ≤ (T.state tree.new).faults }
    ensures fault { IfErr result (FailsToRestore what.now L.link_state pool.old pool.new T.state tree.old tree.new) }
{
    match &what.options.recovery {
        Recovery::Nothing => Ok(()),
        Recovery::FromArchive(fetch) => add_fetch(alloc, what, fetch, pool, tree),
    }
}
