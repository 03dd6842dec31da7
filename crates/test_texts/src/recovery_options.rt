//! Further settings of a recovery, as the option `recovery-option` gives them.

use crate::options::{arguments, known};
use crate::same::{same, same_of};
use options_read::resolve_arguments;
use std::alloc::{AllocError, Global};
use std::process::Abort;
use std::test::Fail;

// The settings in force with these arguments, a blank after each, or the fault.
fn answer(alloc: Global, arguments: &[String], config: &str) -> Result<String, AllocError> {
    if config.len() > 3000 {
        return String::from_str(alloc, "too long");
    }
    match resolve_arguments(alloc, arguments, config.as_bytes()) {
        Ok(command) => {
            let mut settings = String::new(alloc);
            for setting in &command.options.recovery_options {
                settings.push_str(setting.as_str())?;
                settings.push_str(" ")?;
            }
            Ok(settings)
        }
        Err(fault) => known(alloc, &fault),
    }
}

// The answer to the arguments of a line, which single blanks separate.
fn answer_to(alloc: Global, line: &str, config: &str) -> Result<String, AllocError> {
    let line = format!(in alloc; "--stanza=demo --pg1-path=pg {line}")?;
    answer(alloc, &arguments(alloc, &line)?, config)
}

// The answer to each of these lines under the configuration.
fn try_lines(
    rt: &impl Abort,
    alloc: Global,
    config: &str,
    lines: &[(&str, &str)],
) -> Result<(), AllocError> {
    for &(line, settings) in lines {
        let found = answer_to(alloc, line, config)?;
        same_of(rt, line, found.as_str(), settings);
    }
    Ok(())
}

const GIVEN: &[(&str, &str)] = &[
    ("restore", ""),
    ("--recovery-option=x= restore", "x= "),
    ("--recovery-option x=1 restore", "x=1 "),
    (
        "--recovery-option=primary_conninfo=host=a,port=1 restore",
        "primary_conninfo=host=a,port=1 ",
    ),
    ("--recovery-option=_9=é restore", "_9=é "),
    // All of them, in their order; one name twice too.
    (
        "--recovery-option=b=1 --type=standby --recovery-option a=2 --recovery-option=b=1 restore",
        "b=1 a=2 b=1 ",
    ),
    (
        "--type=time --target=1 --recovery-option=a=1 restore",
        "a=1 ",
    ),
    (
        "--type=lsn --target=0/1 --recovery-option=a=1 restore",
        "a=1 ",
    ),
    (
        "--type=xid --target=1 --recovery-option=a=1 restore",
        "a=1 ",
    ),
    (
        "--type=name --target=1 --recovery-option=a=1 restore",
        "a=1 ",
    ),
    ("--type=immediate --recovery-option=a=1 restore", "a=1 "),
    // Other settings whose names begin as those of a target.
    (
        "--recovery-option=recovery_min_apply_delay=5min restore",
        "recovery_min_apply_delay=5min ",
    ),
    (
        "--recovery-option=recovery_target_=1 restore",
        "recovery_target_=1 ",
    ),
];

#[test]
fn settings_of_a_recovery(rt: HostRuntime) -> Result<(), Fail> {
    try_lines(&rt, rt.alloc(), "", GIVEN)?;
    Ok(())
}

const REFUSED: &[(&str, &str)] = &[
    ("--recovery-option=x restore", "6 recovery-option"),
    ("--recovery-option==x restore", "6 recovery-option"),
    ("--recovery-option= restore", "6 recovery-option"),
    ("--recovery-option=X=1 restore", "6 recovery-option"),
    ("--recovery-option=a-b=1 restore", "6 recovery-option"),
    ("--recovery-option=a.b=1 restore", "6 recovery-option"),
    ("--recovery-option=é=1 restore", "6 recovery-option"),
    (
        "--recovery-option=Recovery_target_time=1 restore",
        "6 recovery-option",
    ),
    (
        "--recovery-option=recovery_target=immediate restore",
        "6 recovery-option",
    ),
    (
        "--recovery-option=recovery_target_action=promote restore",
        "6 recovery-option",
    ),
    (
        "--recovery-option=recovery_target_inclusive=off restore",
        "6 recovery-option",
    ),
    (
        "--recovery-option=recovery_target_lsn=1 restore",
        "6 recovery-option",
    ),
    (
        "--recovery-option=recovery_target_name=x restore",
        "6 recovery-option",
    ),
    (
        "--recovery-option=recovery_target_time=1 restore",
        "6 recovery-option",
    ),
    (
        "--recovery-option=recovery_target_timeline=latest restore",
        "6 recovery-option",
    ),
    (
        "--recovery-option=recovery_target_xid=7 restore",
        "6 recovery-option",
    ),
    // Each one is looked at.
    (
        "--recovery-option=a=1 --recovery-option=b restore",
        "6 recovery-option",
    ),
    (
        "--recovery-option=a=1 --recovery-option",
        "6 recovery-option",
    ),
    // No other option may be given twice.
    ("--set=a --recovery-option=a=1 --set=a restore", "5 set"),
    (
        "--type=none --recovery-option=a=1 restore",
        "8 recovery-option",
    ),
    ("--recovery-option=a=1 backup", "8 recovery-option"),
    ("--no-recovery-option restore", "4 --no-recovery-option"),
];

#[test]
fn settings_that_are_refused(rt: HostRuntime) -> Result<(), Fail> {
    try_lines(&rt, rt.alloc(), "", REFUSED)?;
    Ok(())
}

const SECTIONS: &str = "[global]
recovery-option=a=1
recovery-option=b=2
[demo]
recovery-option=c=3
recovery-option=c=4
[other:restore]
recovery-option=d
";

const CONFIGURED: &[(&str, &str)] = &[
    ("restore", "c=3 c=4 "),
    ("--recovery-option=e=5 restore", "e=5 "),
    ("--type=none restore", ""),
    ("--type=standby restore", "c=3 c=4 "),
];

#[test]
fn settings_of_the_configuration(rt: HostRuntime) -> Result<(), Fail> {
    try_lines(&rt, rt.alloc(), SECTIONS, CONFIGURED)?;
    Ok(())
}

// Configurations, and the answer to a restore with each.
const CONFIGURATIONS: &[(&str, &str)] = &[
    // Of a weaker section nothing counts, not even what is wrong.
    (
        "[global]\nrecovery-option=a\n[demo:restore]\nrecovery-option = b= 2 \n",
        "b= 2 ",
    ),
    // A section may be opened again.
    (
        "[demo]\nrecovery-option=b=1\n[global]\n[demo]\nrecovery-option=a=2\n",
        "b=1 a=2 ",
    ),
    ("[demo]\nrecovery-option=b = 2\n", "6 recovery-option"),
    ("[demo]\nrecovery-option=\n", "6 recovery-option"),
    (
        "[demo]\nrecovery-option=a=1\nrecovery-option=b\n",
        "6 recovery-option",
    ),
    (
        "[demo]\nrecovery-option=recovery_target_time=1\n",
        "6 recovery-option",
    ),
    (
        "[demo]\nrecovery-option=a=1\nrecovery-option=b\nset=x\nset=y\n",
        "5 set",
    ),
];

#[test]
fn settings_of_configurations(rt: HostRuntime) -> Result<(), Fail> {
    for &(config, want) in CONFIGURATIONS {
        let found = answer_to(rt.alloc(), "restore", config)?;
        same_of(&rt, config, found.as_str(), want);
    }
    Ok(())
}

const WRONG: &str = "[demo]
recovery-option=a=1
recovery-option=b
";

// Where they aren't in force a wrong one is passed over.
const NOT_IN_FORCE: &[(&str, &str)] = &[
    ("--type=none restore", ""),
    ("--recovery-option=a=1 restore", "a=1 "),
    ("backup", ""),
];

#[test]
fn settings_that_are_passed_over(rt: HostRuntime) -> Result<(), Fail> {
    try_lines(&rt, rt.alloc(), WRONG, NOT_IN_FORCE)?;
    Ok(())
}

// A value of blanks, and one that ends with these bytes.
fn long(alloc: Global, blanks: usize, end: &str) -> Result<Vec<String>, AllocError> {
    let mut setting = String::from_str(alloc, "--recovery-option=x=")?;
    for _ in 0..blanks {
        setting.push_str(" ")?;
    }
    setting.push_str(end)?;
    let mut words = arguments(alloc, "--stanza=demo --pg1-path=pg restore")?;
    words.push(setting)?;
    Ok(words)
}

#[test]
fn settings_by_their_bytes(rt: HostRuntime) -> Result<(), Fail> {
    let alloc = rt.alloc();
    let most = answer(alloc, &long(alloc, 1021, "y")?, "")?;
    same(&rt, most.len(), 1025);
    let more = answer(alloc, &long(alloc, 1022, "y")?, "")?;
    same(&rt, more.as_str(), "6 recovery-option");
    for end in ["\n", "\t", "\0", "\u{7f}", "\u{1f}"] {
        let control = answer(alloc, &long(alloc, 1, end)?, "")?;
        same(&rt, control.as_str(), "6 recovery-option");
    }
    let shown = answer(alloc, &long(alloc, 0, "~'\\=\u{80}")?, "")?;
    same(&rt, shown.as_str(), "x=~'\\=\u{80} ");
    Ok(())
}
