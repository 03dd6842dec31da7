//! Info texts and their values, and the labels of backups; dates by `date`.

use crate::same::{same, same_of};
use crate::texts::{ARCHIVE, BACKUP, LONG_HISTORY, SYSTEM, TWO_BACKUPS, value_of};
use base_model::{
    ArchiveInfo, BackupInfo, BackupKind, Cluster, ClusterId, Entry, Label, Later, Segment, Span,
};
use base_text::NoMemory;
use repo_info::Info;
use repo_ini::write_info_text;
use repo_names::{label_text, label_time, read_label};
use std::alloc::Global;
use std::process::Abort;
use std::test::Fail;

// The value has this text.
fn has_text<I: Info>(rt: &impl Abort, alloc: Global, value: &I, text: &str) -> Result<(), NoMemory>
    requires { I.is_valid value.now }
{
    let parts = value.parts(alloc)?;
    let written = write_info_text(alloc, &parts)?;
    same(rt, str::from_utf8(&written).ok(), Some(text));
    Ok(())
}

#[test]
fn archive_texts(rt: HostRuntime) -> Result<(), Fail> {
    let info: ArchiveInfo = value_of(&rt, rt.alloc(), ARCHIVE)?;
    let cluster = ClusterId {
        id: 1,
        system: SYSTEM,
        version: 16,
    };
    same(&rt, info.current, 1);
    same(&rt, info.history.as_slice(), &[cluster]);
    has_text(&rt, rt.alloc(), &info, ARCHIVE)?;
    Ok(())
}

#[test]
fn long_histories(rt: HostRuntime) -> Result<(), Fail> {
    let info: ArchiveInfo = value_of(&rt, rt.alloc(), LONG_HISTORY)?;
    same(&rt, info.current, 11);
    same(&rt, info.history.len(), 11);
    for (cluster, id) in info.history.iter().zip(1..12u32) {
        let want = ClusterId {
            id,
            system: u64::from(id),
            version: 16,
        };
        same(&rt, *cluster, want);
    }
    has_text(&rt, rt.alloc(), &info, LONG_HISTORY)?;
    Ok(())
}

const CLUSTER: Cluster = Cluster {
    id: 1,
    system: SYSTEM,
    version: 16,
    control: 1300,
    catalog: 202307071,
};

#[test]
fn backup_texts(rt: HostRuntime) -> Result<(), Fail> {
    let info: BackupInfo = value_of(&rt, rt.alloc(), BACKUP)?;
    same(&rt, info.current, 1);
    same(&rt, info.history.as_slice(), &[CLUSTER]);
    same(&rt, info.backups.len(), 0);
    has_text(&rt, rt.alloc(), &info, BACKUP)?;
    Ok(())
}

const FULL: Label = Label {
    full: 1704164645,
    later: None,
};

const DIFF: Label = Label {
    full: 1704164645,
    later: Some(Later {
        time: 1704164705,
        kind: BackupKind::Diff,
    }),
};

const INCR: Label = Label {
    full: 1704164645,
    later: Some(Later {
        time: 1704164705,
        kind: BackupKind::Incr,
    }),
};

const SPAN: Span = Span {
    start: Segment {
        timeline: 1,
        log: 0,
        seg: 3,
    },
    stop: Segment {
        timeline: 1,
        log: 0,
        seg: 255,
    },
};

fn is_full(rt: &impl Abort, entry: &Entry) {
    same(rt, entry.label, FULL);
    same(rt, entry.kind, BackupKind::Full);
    same(rt, entry.prior, None);
    same(rt, entry.references.len(), 0);
    same(rt, entry.db, 1);
    same(rt, entry.span, Some(SPAN));
    same(rt, entry.start, 1704164645);
    same(rt, entry.stop, 1704164650);
    same(rt, entry.size, 400);
    same(rt, entry.stored, 300);
}

fn is_diff(rt: &impl Abort, entry: &Entry) {
    same(rt, entry.label, DIFF);
    same(rt, entry.kind, BackupKind::Diff);
    same(rt, entry.prior, Some(FULL));
    same(rt, entry.references.as_slice(), &[FULL]);
    same(rt, entry.db, 1);
    same(rt, entry.span, None);
    same(rt, entry.start, 1704164705);
    same(rt, entry.stop, 1704164706);
    same(rt, entry.size, 400);
    same(rt, entry.stored, 5);
}

#[test]
fn listed_backups(rt: HostRuntime) -> Result<(), Fail> {
    let info: BackupInfo = value_of(&rt, rt.alloc(), TWO_BACKUPS)?;
    same(&rt, info.current, 1);
    same(&rt, info.history.as_slice(), &[CLUSTER]);
    match info.backups.as_slice() {
        [full, diff] => {
            is_full(&rt, full);
            is_diff(&rt, diff);
        }
        other => panic!(rt; "{} backups", other.len()),
    }
    has_text(&rt, rt.alloc(), &info, TWO_BACKUPS)?;
    Ok(())
}

const NO_LABELS: &[&str] = &[
    "",
    "20240230-030405F",
    "20230229-030405F",
    "20241301-030405F",
    "19691231-235959F",
    "20240102-240000F",
    "20240102-030460F",
    "20240102-030405X",
    "20240102-030405f",
    "20240102-030405D",
    "20240102-030405F_20240102-030505",
    "20240102-030405F_20240102-030505F",
    "20240102-030405F_20240102-030505D ",
];

#[test]
fn no_labels(rt: HostRuntime) {
    for text in NO_LABELS {
        same_of(&rt, text, read_label(text.as_bytes()), None);
    }
    same(&rt, label_time(&FULL), 1704164645);
    same(&rt, label_time(&DIFF), 1704164705);
}

fn full_label(time: u64) -> Label {
    Label {
        full: time,
        later: None,
    }
}

// The texts of labels of full backups, and their times.
const FULL_LABELS: &[(u64, &str)] = &[
    (0, "19700101-000000F"),
    (951782400, "20000229-000000F"),
    (4107542399, "21000228-235959F"),
    (253402300799, "99991231-235959F"),
];

// The text is the label's.
fn label_is(rt: &impl Abort, alloc: Global, label: Label, text: &str) -> Result<(), NoMemory> {
    let found = read_label(text.as_bytes()).expect(rt, "a label");
    same_of(rt, text, found, label);
    same(rt, label_text(alloc, &found)?.as_str(), text);
    Ok(())
}

#[test]
fn label_texts(rt: HostRuntime) -> Result<(), Fail> {
    let alloc = rt.alloc();
    for &(time, text) in FULL_LABELS {
        label_is(&rt, alloc, full_label(time), text)?;
    }
    label_is(&rt, alloc, DIFF, "20240102-030405F_20240102-030505D")?;
    label_is(&rt, alloc, INCR, "20240102-030405F_20240102-030505I")?;
    Ok(())
}
