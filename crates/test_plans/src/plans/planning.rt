//! Which jobs copy the files of a listing (pgBackRest command reference, "Backup").

use crate::plans::same::same_of;
use backup_plan::{BackupPlan, Choice, PlanSettings, Taken, digests, plan};
use base_model::FileEntry;
use base_text::Sum;
use std::alloc::{AllocError, Global};
use std::test::Fail;
use worker_protocol::Job;

const PLAIN: PlanSettings = PlanSettings {
    delta: false,
    bundle: false,
    bundle_size: 0,
    bundle_limit: 0,
};

const DELTA: PlanSettings = PlanSettings {
    delta: true,
    bundle: false,
    bundle_size: 0,
    bundle_limit: 0,
};
// The sizes that bundles have where none are given.
const BUNDLES: PlanSettings = PlanSettings {
    delta: false,
    bundle: true,
    bundle_size: 20_971_520,
    bundle_limit: 2_097_152,
};

const SMALL_BUNDLES: PlanSettings = PlanSettings {
    delta: false,
    bundle: true,
    bundle_size: 1_048_576,
    bundle_limit: 2_097_152,
};

/// A file with its size and time.
type File = (&'static str, u64, u64);

/// The files, how they are copied, what is done about each, and the files of each job.
type Full = (
    &'static str,
    &'static [File],
    PlanSettings,
    &'static [Choice],
    &'static str,
);

const FULL: &[Full] = &[
    (
        "a job for each file with bytes",
        &[
            ("PG_VERSION", 3, 1),
            ("base/5/a", 0, 1),
            ("global/pg_control", 8_192, 1),
        ],
        PLAIN,
        &[Choice::Alone { job: 0 }, Choice::Empty, Choice::Last],
        "PG_VERSION; global/pg_control; ",
    ),
    (
        "files up to the limit are bundled",
        &[
            ("PG_VERSION", 3, 1),
            ("base/5/a", 0, 1),
            ("base/5/b", 2_097_152, 1),
            ("base/5/c", 2_097_153, 1),
            ("global/pg_control", 8_192, 1),
        ],
        BUNDLES,
        &[
            Choice::Bundle { number: 1, item: 0 },
            Choice::Empty,
            Choice::Bundle { number: 1, item: 1 },
            Choice::Alone { job: 0 },
            Choice::Last,
        ],
        "base/5/c; PG_VERSION base/5/b; global/pg_control; ",
    ),
    (
        "a bundle is full",
        &[
            ("PG_VERSION", 3, 1),
            ("base/1/a", 700_000, 1),
            ("base/1/b", 400_000, 1),
            ("base/1/c", 300_000, 1),
            ("base/1/d", 1_500_000, 1),
            ("base/1/e", 10, 1),
            ("global/pg_control", 8_192, 1),
        ],
        SMALL_BUNDLES,
        &[
            Choice::Bundle { number: 1, item: 0 },
            Choice::Bundle { number: 1, item: 1 },
            Choice::Bundle { number: 2, item: 0 },
            Choice::Bundle { number: 2, item: 1 },
            Choice::Bundle { number: 3, item: 0 },
            Choice::Bundle { number: 4, item: 0 },
            Choice::Last,
        ],
        "PG_VERSION base/1/a; base/1/b base/1/c; base/1/d; base/1/e; global/pg_control; ",
    ),
];

/// One file besides that of a prior backup, whether its digest is that one's, how it is copied, and what is done about
/// it.
type Beside = (&'static str, File, File, bool, PlanSettings, Choice);

const BESIDE: &[Beside] = &[
    (
        "its size and time are those of the prior backup's",
        ("base/5/1", 10, 7),
        ("base/5/1", 10, 7),
        false,
        PLAIN,
        Choice::Skip,
    ),
    (
        "its time is later",
        ("base/5/1", 10, 8),
        ("base/5/1", 10, 7),
        true,
        PLAIN,
        Choice::Alone { job: 0 },
    ),
    (
        "its size is another",
        ("base/5/1", 11, 7),
        ("base/5/1", 10, 7),
        true,
        DELTA,
        Choice::Alone { job: 0 },
    ),
    (
        "its time is later, its digest the same",
        ("base/5/1", 10, 8),
        ("base/5/1", 10, 7),
        true,
        DELTA,
        Choice::Skip,
    ),
    (
        "its time is the same, its digest another",
        ("base/5/1", 10, 7),
        ("base/5/1", 10, 7),
        false,
        DELTA,
        Choice::Alone { job: 0 },
    ),
    (
        "the prior backup hasn't it",
        ("base/5/1", 10, 7),
        ("base/5/2", 10, 7),
        true,
        PLAIN,
        Choice::Alone { job: 0 },
    ),
    (
        "the control file is always copied",
        ("global/pg_control", 8_192, 7),
        ("global/pg_control", 8_192, 7),
        true,
        PLAIN,
        Choice::Last,
    ),
];

fn taken(alloc: Global, (path, size, time): File) -> Result<Taken, AllocError> {
    Ok(Taken {
        path: String::from_str(alloc, path)?,
        size,
        time,
    })
}

fn entry(alloc: Global, (path, size, time): File) -> Result<FileEntry, AllocError> {
    Ok(FileEntry {
        path: String::from_str(alloc, path)?,
        size,
        time,
        sum: Sum::of(b"0123456789"),
        reference: None,
        bundle: None,
    })
}

// The paths of each job's items.
fn paths_of(alloc: Global, jobs: &[Job]) -> Result<String, AllocError> {
    let mut text = String::new(alloc);
    for job in jobs {
        let mut between = "";
        for item in &job.items {
            text.push_str(between)?;
            text.push_str(&item.path)?;
            between = " ";
        }
        text.push_str("; ")?;
    }
    Ok(text)
}

#[test]
fn full_backups(rt: HostRuntime) -> Result<(), Fail> {
    let alloc = rt.alloc();
    for &(case, files, settings, choices, jobs) in FULL {
        let mut all = Vec::new(alloc);
        let mut equal = Vec::new(alloc);
        for &file in files {
            all.push(taken(alloc, file)?)?;
            equal.push(false)?;
        }
        assert!(rt; all.len() < 100);
        assert_eq!(rt; equal.len(), all.len());
        let found = plan(alloc, &all, &[], &equal, &settings)?;
        same_of(&rt, case, found.choices.as_slice(), choices);
        same_of(&rt, case, paths_of(alloc, &found.jobs)?.as_str(), jobs);
    }
    Ok(())
}

#[test]
fn beside_a_prior_backup(rt: HostRuntime) -> Result<(), Fail> {
    let alloc = rt.alloc();
    for &(case, file, prior, equal, settings, choice) in BESIDE {
        let found = plan(
            alloc,
            &[taken(alloc, file)?],
            &[entry(alloc, prior)?],
            &[equal],
            &settings,
        )?;
        same_of(&rt, case, found.choices.as_slice(), [choice].as_slice());
    }
    Ok(())
}

#[test]
fn digests_that_are_asked(rt: HostRuntime) -> Result<(), Fail> {
    let alloc = rt.alloc();
    for (file, prior, want) in [
        (("base/5/1", 10, 8), ("base/5/1", 10, 7), "base/5/1; "),
        (("base/5/1", 11, 7), ("base/5/1", 10, 7), ""),
        (("base/5/1", 0, 7), ("base/5/1", 0, 7), ""),
        (
            ("global/pg_control", 8_192, 7),
            ("global/pg_control", 8_192, 7),
            "",
        ),
    ] {
        let jobs = digests(alloc, &[taken(alloc, file)?], &[entry(alloc, prior)?])?;
        same_of(&rt, "digests", paths_of(alloc, &jobs)?.as_str(), want);
    }
    Ok(())
}
