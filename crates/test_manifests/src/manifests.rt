//! Manifests and their texts.

use crate::same::same;
use crate::texts::{OFFLINE, ONLINE, manifest_of};
use base_model::{
    BackupKind, Bundled, Choices, Cluster, FileEntry, Label, Later, Lsn, Manifest, SegSize,
    Segment, Span, WalPart,
};
use base_text::Sum;
use repo_manifest::{Holder, Place, Spot, encode, locate};
use std::process::Abort;
use std::test::Fail;

const FULL: Label = Label {
    full: 1704164645,
    later: None,
};

const INCR: Label = Label {
    full: 1704164645,
    later: Some(Later {
        time: 1704164705,
        kind: BackupKind::Incr,
    }),
};

const CLUSTER: Cluster = Cluster {
    id: 1,
    system: 6917529027641081857,
    version: 16,
    control: 1300,
    catalog: 202307071,
};

const LOG: WalPart = WalPart {
    span: Span {
        start: Segment {
            timeline: 1,
            log: 0,
            seg: 254,
        },
        stop: Segment {
            timeline: 1,
            log: 1,
            seg: 1,
        },
    },
    from: Lsn(4261412904),
    to: Lsn(4311744824),
    size: SegSize(16777216),
};

// A file without its path.
type Known = (u64, u64, Sum, Option<Label>, Option<Bundled>);

fn is_file(rt: &impl Abort, file: &FileEntry, path: &str, known: Known) {
    same(rt, file.path.as_str(), path);
    same(
        rt,
        (file.size, file.time, file.sum, file.reference, file.bundle),
        known,
    );
}

fn is_online(rt: &impl Abort, m: &Manifest) {
    same(rt, m.label, INCR);
    same(rt, m.kind, BackupKind::Incr);
    same(rt, m.prior, Some(FULL));
    same(rt, m.start, 1704164705);
    same(rt, m.stop, 1704164706);
    same(rt, m.cluster, CLUSTER);
    same(rt, m.wal, Some(LOG));
    let choices = Choices {
        bundle: true,
        delta: false,
    };
    same(rt, m.choices, choices);
}

#[test]
fn manifests_of_a_server(rt: HostRuntime) -> Result<(), Fail> {
    let m = manifest_of(&rt, rt.alloc(), ONLINE)?;
    is_online(&rt, &m);
    let [version, old, empty, control] = m.files.as_slice() else {
        panic!(rt; "{} files", m.files.len())
    };
    let first = Some(Bundled { number: 1, at: 0 });
    let later = Some(Bundled {
        number: 7,
        at: 4096,
    });
    let digits = Sum::of(b"0123456789");
    is_file(
        &rt,
        version,
        "PG_VERSION",
        (3, 1704164000, Sum::of(b"abc"), None, first),
    );
    is_file(
        &rt,
        old,
        "base/1/2",
        (10, 1704164001, digits, Some(FULL), later),
    );
    is_file(
        &rt,
        empty,
        "base/1/3",
        (0, 1704164002, Sum::of(b""), None, None),
    );
    is_file(
        &rt,
        control,
        "global/pg_control",
        (10, 1704164003, digits, None, None),
    );
    let [base, one, global] = m.folders.as_slice() else {
        panic!(rt; "{} folders", m.folders.len())
    };
    same(
        &rt,
        (base.as_str(), one.as_str(), global.as_str()),
        ("base", "base/1", "global"),
    );
    Ok(())
}

#[test]
fn manifests_of_a_folder(rt: HostRuntime) -> Result<(), Fail> {
    let m = manifest_of(&rt, rt.alloc(), OFFLINE)?;
    same(&rt, m.label, FULL);
    same(&rt, m.kind, BackupKind::Full);
    same(&rt, m.prior, None);
    same(&rt, m.wal, None);
    let choices = Choices {
        bundle: false,
        delta: true,
    };
    same(&rt, m.choices, choices);
    same(&rt, m.files.len(), 0);
    same(&rt, m.folders.len(), 0);
    Ok(())
}

#[test]
fn texts_again(rt: HostRuntime) -> Result<(), Fail> {
    for text in [ONLINE, OFFLINE] {
        let m = manifest_of(&rt, rt.alloc(), text)?;
        let written = encode(rt.alloc(), &m)?;
        same(&rt, str::from_utf8(&written).ok(), Some(text));
    }
    Ok(())
}

fn is_place(rt: &impl Abort, file: &FileEntry, want: Option<(Holder, u64, u64)>) {
    let found = locate(file).map(|place| (place.holder, place.at, place.size));
    same(rt, found, want);
}

fn name_of<'a>(place: Option<Place<'a>>) -> (Option<&'a str>, Option<u32>) {
    match place {
        Some(
            Place {
                spot: Spot::Path(path),
                ..
            },
        ) => (Some(path), None),
        Some(
            Place {
                spot: Spot::Bundle(number),
                ..
            },
        ) => (None, Some(number)),
        None => (None, None),
    }
}

#[test]
fn places(rt: HostRuntime) -> Result<(), Fail> {
    let m = manifest_of(&rt, rt.alloc(), ONLINE)?;
    let [version, old, empty, control] = m.files.as_slice() else {
        panic!(rt; "{} files", m.files.len())
    };
    is_place(&rt, version, Some((Holder::Own, 0, 3)));
    is_place(&rt, old, Some((Holder::Other(FULL), 4096, 10)));
    is_place(&rt, empty, None);
    is_place(&rt, control, Some((Holder::Own, 0, 10)));
    same(&rt, name_of(locate(old)), (None, Some(7)));
    same(
        &rt,
        name_of(locate(control)),
        (Some("global/pg_control"), None),
    );
    Ok(())
}
