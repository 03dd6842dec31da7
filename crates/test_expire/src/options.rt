// The rules of options.
use crate::same::{same, well};
use base_model::BackupKind;
use cmd_expire::rules_of;
use expire_rules::{FullRule, Rules};
use options_read::resolve_arguments;
use std::alloc::{AllocError, Global};

// The arguments of an expire with these options, which single blanks separate.
fn arguments(alloc: Global, options: &str) -> Result<Vec<String>, AllocError> {
    let mut arguments = Vec::new(alloc);
    arguments.push(String::from_str(alloc, "expire")?)?;
    arguments.push(String::from_str(alloc, "--stanza=demo")?)?;
    for word in options.split(' ') {
        if !word.is_empty() {
            arguments.push(String::from_str(alloc, word)?)?;
        }
    }
    Ok(arguments)
}

const ROWS: &[(&str, Rules)] = &[
    (
        "",
        Rules {
            full: FullRule::Unset,
            diff: None,
            archive: None,
            archive_kind: BackupKind::Full,
        },
    ),
    (
        "--repo1-retention-full=2 --repo1-retention-diff=3",
        Rules {
            full: FullRule::Count(2),
            diff: Some(3),
            archive: None,
            archive_kind: BackupKind::Full,
        },
    ),
    (
        "--repo1-retention-full=14 --repo1-retention-full-type=time --repo1-retention-archive=1",
        Rules {
            full: FullRule::Days(14),
            diff: None,
            archive: Some(1),
            archive_kind: BackupKind::Full,
        },
    ),
    (
        "--repo1-retention-full-type=time --repo1-retention-archive-type=incr",
        Rules {
            full: FullRule::Unset,
            diff: None,
            archive: None,
            archive_kind: BackupKind::Incr,
        },
    ),
    (
        "--repo1-retention-full=1 --repo1-retention-full-type=count --repo1-retention-archive-type=diff",
        Rules {
            full: FullRule::Count(1),
            diff: None,
            archive: None,
            archive_kind: BackupKind::Diff,
        },
    ),
];

#[test]
fn options_have_their_rules(rt: HostRuntime) {
    let alloc = rt.alloc();
    for (options, want) in ROWS {
        let arguments = well(&rt, arguments(alloc, options));
        let command = well(&rt, resolve_arguments(alloc, &arguments, b""));
        same(
            &rt,
            (*options, rules_of(&command.options)),
            (*options, *want),
        );
    }
}
