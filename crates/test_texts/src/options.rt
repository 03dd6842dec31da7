//! What arguments and configurations say, by the rules of the command reference.

use crate::same::{same, same_of};
use options_read::{
    Command, ConfigPath, KindWord, LogWord, Options, OutputWord, RestoreWord, RetentionWord, Usage,
    config_path, resolve_arguments,
};
use options_table::Verb;
use std::alloc::{AllocError, Global};
use std::fmt::Display;
use std::process::Abort;
use std::test::Fail;

// The arguments of a line, which single blanks separate.
pub(crate) fn arguments(alloc: Global, line: &str) -> Result<Vec<String>, AllocError> {
    let mut arguments = Vec::new(alloc);
    for word in line.split(' ') {
        if !word.is_empty() {
            arguments.push(String::from_str(alloc, word)?)?;
        }
    }
    Ok(arguments)
}

// A number and what it is about.
fn tell(alloc: Global, number: u32, what: &impl Display) -> Result<String, AllocError> {
    format!(in alloc; "{number} {what}")
}

// The number of a fault, and what it states.
pub(crate) fn known(alloc: Global, fault: &Usage) -> Result<String, AllocError> {
    match fault {
        Usage::NoMemory => String::from_str(alloc, "memory"),
        Usage::CommandMissing => String::from_str(alloc, "2"),
        Usage::CommandUnknown { word } => tell(alloc, 3, word),
        Usage::OptionUnknown { word } => tell(alloc, 4, word),
        Usage::OptionRepeated { name } => tell(alloc, 5, name),
        Usage::OptionValue { name } => tell(alloc, 6, name),
        Usage::OptionMissing { name } => tell(alloc, 7, name),
        Usage::OptionNotFor { name } => tell(alloc, 8, name),
        Usage::ConfigSyntax { line } => tell(alloc, 9, line),
        Usage::ParameterCount { given } => tell(alloc, 11, given),
        Usage::ParameterUtf8 => String::from_str(alloc, "13"),
    }
}

// Some values in force.
fn values(alloc: Global, options: &Options) -> Result<String, AllocError> {
    let most = options.process_max;
    let size = options.repo1_bundle_size;
    let time = options.archive_timeout;
    let online = options.online;
    format!(in alloc; "{most} {size} {time} {online}")
}

// Some values in force, or the fault.
fn answer(alloc: Global, line: &str, config: &[u8]) -> Result<String, AllocError> {
    if config.len() > 1000 {
        return String::from_str(alloc, "too long");
    }
    match resolve_arguments(alloc, &arguments(alloc, line)?, config) {
        Ok(command) => values(alloc, &command.options),
        Err(fault) => known(alloc, &fault),
    }
}

// Each of these lines has this answer under the configuration.
fn answers(
    rt: &impl Abort,
    alloc: Global,
    rows: &[(&str, &str)],
    config: &str,
) -> Result<(), AllocError> {
    for &(line, want) in rows {
        let found = answer(alloc, line, config.as_bytes())?;
        same_of(rt, line, found.as_str(), want);
    }
    Ok(())
}

const NO_COMMANDS: &[(&str, &str)] = &[
    ("", "2"),
    ("--stanza=demo", "2"),
    ("--stanza=demo bakup", "3 bakup"),
    (
        "--stanza=demo --compress-typ=none backup",
        "4 --compress-typ=none",
    ),
    ("--stanza=demo -x info", "4 -x"),
    ("--stanza=demo -- info", "4 --"),
    ("--stanza=demo --no-set info", "4 --no-set"),
    ("--stanza=demo --no-online=y info", "4 --no-online=y"),
    ("--delta --delta", "5 delta"),
    ("--delta --no-delta", "5 delta"),
    ("--stanza=demo --stanza other info", "5 stanza"),
    ("--stanza= --what", "6 stanza"),
    ("--what --stanza=", "4 --what"),
    ("info --stanza", "6 stanza"),
];

#[test]
fn arguments_that_are_no_command(rt: HostRuntime) -> Result<(), Fail> {
    answers(&rt, rt.alloc(), NO_COMMANDS, "[global\n")?;
    Ok(())
}

const REFUSED: &[(&str, &str)] = &[
    ("backup", "7 stanza"),
    ("info --stanza --online", "6 stanza"),
    ("--stanza=demo backup", "7 pg1-path"),
    ("--stanza=demo --pg1-path=pg rehearse", "7 number"),
    ("--stanza=demo --delta expire", "8 delta"),
    ("--stanza=demo info x", "11 1"),
    ("--stanza=demo --pg1-path=pg archive-push", "11 0"),
    ("--stanza=demo --pg1-path=pg archive-get 1 2 3", "11 3"),
    ("--stanza=demo --pg1-path=pg archive-get:async", "11 0"),
    (
        "--stanza=demo --pg1-path=pg --process-max=65 restore x",
        "6 process-max",
    ),
    ("--stanza=demo --pg1-path=pg --type=full restore", "6 type"),
    ("--stanza=demo --log-timestamp=on info", "6 log-timestamp"),
    (
        "--stanza=demo --log-level-file=loud info",
        "6 log-level-file",
    ),
    (
        "--stanza=demo --pg1-path=pg --db-timeout=0 backup",
        "6 db-timeout",
    ),
    ("--stanza=demo --db-timeout=8d info", "6 db-timeout"),
    (
        "--stanza=demo --pg1-path=pg --io-timeout=25h restore",
        "6 io-timeout",
    ),
    (
        "--stanza=demo --db-timeout=7d --io-timeout=1d --log-path=. --log-level-file=trace info",
        "1 20971520 60 true",
    ),
];

#[test]
fn commands_that_are_refused(rt: HostRuntime) -> Result<(), Fail> {
    answers(&rt, rt.alloc(), REFUSED, "")?;
    Ok(())
}

const CONFIGURATIONS: &[(&str, &str)] = &[
    ("[global\n", "9 1"),
    ("[global]\n\n# a\ndelta\n", "9 4"),
    (" \t\ndelta=y\n", "9 2"),
    ("[global]\n=y\n", "9 2"),
    ("[a]\ndelta=y\nx=1\nx=1\n[b]\n[a]\n delta = n", "5 delta"),
    ("[global]\nrepo1-path=\n", "6 repo1-path"),
    ("[global]\nlog-timestamp=on\n", "6 log-timestamp"),
    (
        "[demo]\nrepo1-path=r\n[global]\nrepo1-path=\n",
        "1 20971520 60 true",
    ),
    (
        "[global]\nprocess-max=0\nstanza=-\nconfig=\n",
        "1 20971520 60 true",
    ),
];

#[test]
fn configurations(rt: HostRuntime) -> Result<(), Fail> {
    for &(config, want) in CONFIGURATIONS {
        let found = answer(rt.alloc(), "--stanza=demo info", config.as_bytes())?;
        same_of(&rt, config, found.as_str(), want);
    }
    let found = answer(rt.alloc(), "--stanza=demo info", b"[global]\n#\xff\n")?;
    same(&rt, found.as_str(), "13");
    Ok(())
}

const SECTIONS: &str = "[global]
process-max = 4
repo1-bundle-size=1g
[demo:backup]
\tprocess-max=3\t
[demo]
process-max=7
archive-timeout=1d
[global:backup]
online=n
archive-timeout=2m
[other]
online=y
[global:restore]
process-max=9
";

const STRONGEST: &[(&str, &str)] = &[
    (
        "--stanza=demo --pg1-path=pg backup --process-max=2",
        "2 1073741824 86400 false",
    ),
    (
        "--stanza=demo --pg1-path=pg backup",
        "3 1073741824 86400 false",
    ),
    (
        "--stanza=main --pg1-path=pg backup",
        "4 1073741824 120 false",
    ),
    ("--stanza=main --pg1-path=pg restore", "9 20971520 60 true"),
    ("--stanza=demo --pg1-path=pg restore", "7 20971520 60 true"),
    (
        "--stanza=main --pg1-path=pg backup --online",
        "4 1073741824 120 true",
    ),
    (
        "--stanza=main --pg1-path=pg backup --archive-timeout 3h",
        "4 1073741824 10800 false",
    ),
    (
        "--repo1-bundle-size=8MiB --stanza main --pg1-path=pg backup",
        "4 8388608 120 false",
    ),
    (
        "--repo1-bundle-size=1048576B --stanza main --pg1-path=pg backup",
        "4 1048576 120 false",
    ),
    (
        "--repo1-bundle-size=1048575 --stanza main --pg1-path=pg backup",
        "6 repo1-bundle-size",
    ),
    (
        "--repo1-bundle-size=1025m --stanza main --pg1-path=pg backup",
        "6 repo1-bundle-size",
    ),
    (
        "--repo1-bundle-size=1MBi --stanza main --pg1-path=pg backup",
        "6 repo1-bundle-size",
    ),
    (
        "--archive-timeout=0 --stanza main --pg1-path=pg backup",
        "6 archive-timeout",
    ),
    (
        "--archive-timeout=25h --stanza main --pg1-path=pg backup",
        "6 archive-timeout",
    ),
    (
        "--archive-timeout=1S --stanza main --pg1-path=pg backup",
        "6 archive-timeout",
    ),
];

#[test]
fn strongest_wins(rt: HostRuntime) -> Result<(), Fail> {
    answers(&rt, rt.alloc(), STRONGEST, SECTIONS)?;
    Ok(())
}

// The command's own parts, and its texts without a default.
fn parts(rt: &impl Abort, command: &Command) {
    same(rt, command.verb, Verb::Backup);
    same(rt, command.stanza.as_str(), "demo");
    same(rt, command.given.len(), 0);
    let [first, second] = command.warnings.as_slice() else {
        panic!(rt; "{} warnings", command.warnings.len());
    };
    same(rt, first.as_str(), "no-such");
    same(rt, second.as_str(), "this");
    let options = &command.options;
    same(rt, options.pg1_path.as_deref(), Some("/pg"));
    same(rt, options.config.as_deref(), Some("c"));
    same(rt, options.set.as_deref(), None);
    same(rt, options.log_path.as_deref(), None);
}

fn texts(rt: &impl Abort, options: &Options) {
    same(rt, options.pg1_socket_path.as_str(), "/tmp");
    same(rt, options.pg1_user.as_str(), "postgres");
    same(rt, options.pg1_database.as_str(), "postgres");
    same(rt, options.repo1_path.as_str(), "/var/lib/pgbackrest");
    same(rt, options.spool_path.as_str(), "/var/spool/pgbackrest");
    same(rt, options.lock_path.as_str(), "/tmp/pgbackrest");
}

fn numbers(rt: &impl Abort, options: &Options) {
    same(rt, options.pg1_port, 5432);
    same(rt, options.db_timeout, 1800);
    same(rt, options.io_timeout, 1800);
    same(rt, options.process_max, 1);
    same(rt, options.repo1_retention_full, None);
    same(rt, options.repo1_retention_diff, None);
    same(rt, options.repo1_retention_archive, None);
    same(rt, options.repo1_bundle_size, 20971520);
    same(rt, options.repo1_bundle_limit, 2097152);
    same(rt, options.archive_timeout, 60);
    same(rt, options.archive_get_queue_max, 134217728);
    same(rt, options.number, None);
}

fn choices(rt: &impl Abort, options: &Options) {
    same(rt, options.repo1_retention_full_type, RetentionWord::Count);
    same(rt, options.repo1_retention_archive_type, KindWord::Full);
    same(rt, options.backup_type, KindWord::Incr);
    same(rt, options.restore_type, RestoreWord::Default);
    same(rt, options.output, OutputWord::Text);
    same(rt, options.log_level_stderr, LogWord::Nothing);
    same(rt, options.log_level_file, LogWord::Nothing);
    same(rt, options.repo1_bundle, false);
    same(rt, options.delta, false);
    same(rt, options.start_fast, false);
    same(rt, options.archive_async, false);
    same(rt, options.online, true);
    same(rt, options.expire_auto, true);
}

const UNKNOWN_KEYS: &str =
    "[demo]\nlog-level-console=info\nno-such=1\n[other]\nnor-this=1\n[global]\nthis=\nset=x";

#[test]
fn defaults(rt: HostRuntime) -> Result<(), Fail> {
    let alloc = rt.alloc();
    let line = "--stanza=demo --pg1-path=/pg --config c backup";
    match resolve_arguments(alloc, &arguments(alloc, line)?, UNKNOWN_KEYS.as_bytes()) {
        Ok(command) => {
            parts(&rt, &command);
            texts(&rt, &command.options);
            numbers(&rt, &command.options);
            choices(&rt, &command.options);
        }
        Err(fault) => panic!(rt; "{fault:?}"),
    }
    Ok(())
}

const LOG_LEVELS: &[(&str, LogWord)] = &[
    ("--stanza=demo info --log-level-file=off", LogWord::Nothing),
    (
        "--stanza=demo info --log-level-file=error",
        LogWord::Failures,
    ),
    (
        "--stanza=demo info --log-level-file=warn",
        LogWord::Warnings,
    ),
    (
        "--stanza=demo info --log-level-file=info",
        LogWord::Progress,
    ),
    (
        "--stanza=demo info --log-level-file=detail",
        LogWord::Progress,
    ),
    (
        "--stanza=demo info --log-level-file=debug",
        LogWord::Progress,
    ),
    (
        "--stanza=demo info --log-level-file=trace",
        LogWord::Progress,
    ),
];

#[test]
fn log_levels(rt: HostRuntime) -> Result<(), Fail> {
    let alloc = rt.alloc();
    for &(line, want) in LOG_LEVELS {
        match resolve_arguments(alloc, &arguments(alloc, line)?, b"[global]\n") {
            Ok(command) => same_of(&rt, line, command.options.log_level_file, want),
            Err(fault) => panic!(rt; "{fault:?}"),
        }
    }
    Ok(())
}

// What the arguments alone give.
fn argument_texts(alloc: Global, options: &Options) -> Result<String, AllocError> {
    let folder = options.given_pg1_path.as_deref().unwrap_or("none");
    let repository = options.given_repo1_path.as_deref().unwrap_or("none");
    let no_config = options.no_config;
    format!(in alloc; "{folder} {repository} {no_config}")
}

const ARGUMENTS: &[(&str, &str)] = &[
    ("", "none none false"),
    ("--config=c", "none none false"),
    ("--pg1-path=/a", "/a none false"),
    ("--repo1-path /b --no-config", "none /b true"),
];

#[test]
fn arguments_alone(rt: HostRuntime) -> Result<(), Fail> {
    let alloc = rt.alloc();
    let config = b"[demo]\npg1-path=/pg\nrepo1-path=/repo\n";
    for &(line, want) in ARGUMENTS {
        let mut arguments = arguments(alloc, line)?;
        arguments.push(String::from_str(alloc, "--stanza=demo")?)?;
        arguments.push(String::from_str(alloc, "restore")?)?;
        match resolve_arguments(alloc, &arguments, config) {
            Ok(command) => {
                let found = argument_texts(alloc, &command.options)?;
                same_of(&rt, line, found.as_str(), want);
            }
            Err(fault) => panic!(rt; "{fault:?}"),
        }
    }
    Ok(())
}

// Where the configuration lies, or the fault.
fn place(alloc: Global, line: &str) -> Result<String, AllocError> {
    match config_path(alloc, &arguments(alloc, line)?) {
        Ok(ConfigPath::Nowhere) => String::from_str(alloc, "nowhere"),
        Ok(ConfigPath::Usual(path)) => format!(in alloc; "usual {path}"),
        Ok(ConfigPath::Named(path)) => format!(in alloc; "named {path}"),
        Err(fault) => known(alloc, &fault),
    }
}

const PATHS: &[(&str, &str)] = &[
    ("", "usual /etc/pgbackrest/pgbackrest.conf"),
    ("backup --no-config", "nowhere"),
    ("--config=/none x", "named /none"),
    ("--config --stanza", "named --stanza"),
    (
        "--stanza --no-config info",
        "usual /etc/pgbackrest/pgbackrest.conf",
    ),
    ("--what --config a --delta --delta", "named a"),
    ("--what --config", "6 config"),
    ("--config= --config=a", "6 config"),
    ("--config=a --no-config", "5 config"),
];

#[test]
fn paths(rt: HostRuntime) -> Result<(), Fail> {
    for &(line, want) in PATHS {
        let found = place(rt.alloc(), line)?;
        same_of(&rt, line, found.as_str(), want);
    }
    Ok(())
}
