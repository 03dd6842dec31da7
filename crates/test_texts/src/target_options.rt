//! How far a restored server recovers, as the options say it.

use crate::options::{arguments, known};
use crate::same::{same, same_of};
use options_read::{ActionWord, Options, RestoreWord, TimelineWord, resolve_arguments};
use std::alloc::{AllocError, Global};
use std::process::Abort;
use std::test::Fail;

fn type_word(word: RestoreWord) -> &'static str {
    match word {
        RestoreWord::Default => "default",
        RestoreWord::Plain => "none",
        RestoreWord::Time => "time",
        RestoreWord::Lsn => "lsn",
        RestoreWord::Xid => "xid",
        RestoreWord::Name => "name",
        RestoreWord::Immediate => "immediate",
        RestoreWord::Standby => "standby",
    }
}

fn action_word(word: ActionWord) -> &'static str {
    match word {
        ActionWord::Pause => "pause",
        ActionWord::Promote => "promote",
        ActionWord::Shutdown => "shutdown",
    }
}

fn timeline_word(alloc: Global, word: Option<TimelineWord>) -> Result<String, AllocError> {
    match word {
        None => String::from_str(alloc, "none"),
        Some(TimelineWord::Current) => String::from_str(alloc, "current"),
        Some(TimelineWord::Latest) => String::from_str(alloc, "latest"),
        Some(TimelineWord::Number(number)) => format!(in alloc; "{number}"),
    }
}

// The values in force: type, target, whether it stops before, action and timeline.
fn values(alloc: Global, options: &Options) -> Result<String, AllocError> {
    let kind = type_word(options.restore_type);
    let target = options.target.as_deref().unwrap_or("none");
    let exclusive = options.target_exclusive;
    let action = action_word(options.target_action);
    let timeline = timeline_word(alloc, options.target_timeline)?;
    format!(in alloc; "{kind} {target} {exclusive} {action} {timeline}")
}

// The values in force with these arguments of a restore, or the fault.
fn answer(alloc: Global, line: &str, config: &str) -> Result<String, AllocError> {
    if config.len() > 1000 {
        return String::from_str(alloc, "too long");
    }
    let line = format!(in alloc; "--stanza=demo --pg1-path=pg {line}")?;
    match resolve_arguments(alloc, &arguments(alloc, &line)?, config.as_bytes()) {
        Ok(command) => values(alloc, &command.options),
        Err(fault) => known(alloc, &fault),
    }
}

// Each of these lines has this answer under the configuration.
fn answers(
    rt: &impl Abort,
    alloc: Global,
    rows: &[(&str, &str)],
    config: &str,
) -> Result<(), AllocError> {
    for &(line, want) in rows {
        let found = answer(alloc, line, config)?;
        same_of(rt, line, found.as_str(), want);
    }
    Ok(())
}

const ARGUMENTS: &[(&str, &str)] = &[
    ("restore", "default none false pause none"),
    (
        "--type=default --target-timeline=current restore",
        "default none false pause current",
    ),
    ("--type=none restore", "none none false pause none"),
    (
        "--type=time --target=14:03 restore",
        "time 14:03 false pause none",
    ),
    (
        "--type=time --target=14:03 --target-exclusive --target-action=promote --target-timeline=latest restore",
        "time 14:03 true promote latest",
    ),
    (
        "--type=lsn --target=0/3000060 --no-target-exclusive restore",
        "lsn 0/3000060 false pause none",
    ),
    (
        "--type=lsn --target=0/3000060 --target-exclusive --target-action=promote --target-timeline=2 restore",
        "lsn 0/3000060 true promote 2",
    ),
    (
        "--type=xid --target=010 --target-exclusive=y --target-action=shutdown restore",
        "xid 010 true shutdown none",
    ),
    (
        "--type=xid --target 7 --no-target-exclusive --target-action=pause restore",
        "xid 7 false pause none",
    ),
    (
        "--type=name --target=o'clock --target-action=promote restore",
        "name o'clock false promote none",
    ),
    (
        "--type=immediate --target-action=shutdown --target-timeline=current restore",
        "immediate none false shutdown current",
    ),
    (
        "--type=standby --target-timeline=latest restore",
        "standby none false pause latest",
    ),
    // The number of a timeline is decimal, with leading zeros too.
    ("--target-timeline=1 restore", "default none false pause 1"),
    (
        "--target-timeline 00000010 restore",
        "default none false pause 10",
    ),
    (
        "--target-timeline=4294967295 restore",
        "default none false pause 4294967295",
    ),
];

#[test]
fn targets_of_a_restore(rt: HostRuntime) -> Result<(), Fail> {
    answers(&rt, rt.alloc(), ARGUMENTS, "")?;
    Ok(())
}

const REFUSED: &[(&str, &str)] = &[
    ("--target-timeline=0 restore", "6 target-timeline"),
    ("--target-timeline=4294967296 restore", "6 target-timeline"),
    ("--target-timeline=0x2 restore", "6 target-timeline"),
    ("--target-timeline=-1 restore", "6 target-timeline"),
    ("--target-timeline=Latest restore", "6 target-timeline"),
    ("--target-timeline= restore", "6 target-timeline"),
    ("--type=LSN --target=0/3000060 restore", "6 type"),
    ("--type=lsn restore", "7 target"),
    (
        "--type=none --target-timeline=2 restore",
        "8 target-timeline",
    ),
    ("--type=preserve restore", "6 type"),
    (
        "--type=immediate --target-action=stop restore",
        "6 target-action",
    ),
    (
        "--type=xid --target=7 --target-exclusive=yes restore",
        "6 target-exclusive",
    ),
    ("--type=name --target= restore", "6 target"),
    ("--type=time restore", "7 target"),
    ("--type=xid --target-action=promote restore", "7 target"),
    ("--type=name --target-exclusive restore x", "7 target"),
    ("--target=7 restore", "8 target"),
    ("--type=default --target=7 restore", "8 target"),
    (
        "--type=none --target-timeline=latest restore",
        "8 target-timeline",
    ),
    (
        "--type=none --target-action=promote restore",
        "8 target-action",
    ),
    ("--type=immediate --target=7 restore", "8 target"),
    (
        "--type=immediate --target-exclusive restore",
        "8 target-exclusive",
    ),
    (
        "--type=standby --target-action=promote restore",
        "8 target-action",
    ),
    (
        "--type=name --target=7 --target-exclusive restore",
        "8 target-exclusive",
    ),
    (
        "--type=name --target=7 --no-target-exclusive restore",
        "8 target-exclusive",
    ),
    // Of an option of another type the value isn't looked at, and the first one is named.
    ("--target-action=later restore", "8 target-action"),
    (
        "--target-action=later --target=7 restore x",
        "8 target-action",
    ),
    ("--type=name --target=7 restore x", "11 1"),
    // Another command has none of them.
    ("--target=7 backup", "8 target"),
    ("--target-timeline=latest rehearse", "8 target-timeline"),
];

#[test]
fn targets_that_are_refused(rt: HostRuntime) -> Result<(), Fail> {
    answers(&rt, rt.alloc(), REFUSED, "")?;
    Ok(())
}

const SECTIONS: &str = "[global]
target=first
target-exclusive=y
target-action=later
target-timeline=current
[global:restore]
type=time
[demo:restore]
target-action=promote
";

// What the configuration has for another type is passed over.
const CONFIGURED: &[(&str, &str)] = &[
    ("restore", "time first true promote current"),
    (
        "--target=second --no-target-exclusive restore",
        "time second false promote current",
    ),
    ("--type=name restore", "name first false promote current"),
    ("--type=default restore", "default none false pause current"),
    (
        "--type=immediate restore",
        "immediate none false promote current",
    ),
    ("--type=standby restore", "standby none false pause current"),
    ("--type=none restore", "none none false pause none"),
    ("--type=none --target=second restore", "8 target"),
];

#[test]
fn targets_of_the_configuration(rt: HostRuntime) -> Result<(), Fail> {
    answers(&rt, rt.alloc(), CONFIGURED, SECTIONS)?;
    let wrong = answer(
        rt.alloc(),
        "--type=immediate restore",
        "[demo]\ntarget-action=later\n",
    )?;
    same(&rt, wrong.as_str(), "6 target-action");
    let passed = answer(rt.alloc(), "restore", "[demo]\ntarget-action=later\n")?;
    same(&rt, passed.as_str(), "default none false pause none");
    Ok(())
}
