// What `--help` and `--version` print.
use crate::command_line::{Reader, Word};
use crate::meanings::meaning_of;
use options_table::{Fallback, Opt, OptionKind, TABLE, VERBS, Verb, row_for, types_of, verb_word};
use std::alloc::{AllocError, Global};

const VERSION: &str = "pgbackrest 0.1, repository format 5\n";

const USAGE: &str = "
usage: pgbackrest [options] command [parameters]

Give a value as --name=value or --name value, y and n also as --name and --no-name. A configuration
gives values too, as name=value below [stanza:command], [stanza], [global:command] or [global]; the
command line comes first, then these sections in this order.
";

const WITHOUT_EFFECT: &str = "\nAccepted and ignored:";

/// The text that the arguments ask for: the help of all or of a command, or the version.
///
/// `--help` and `--version` may be anywhere but in the place of an option's value, and `help` and `version` in that
/// of the command. Where a server names a file of its log, no text is in place of storing or fetching it: the arguments
/// are refused then as others are.
pub fn asked_for(alloc: Global, arguments: &[String]) -> Result<Option<String>, AllocError> {
    let mut wish = None;
    let mut verb = None;
    let mut has_parameter = false;
    let mut reader = Reader::new();
    for word in arguments {
        match reader.read(word.as_str()) {
            Word::Dashed("--help" | "-h") => wish = Some(Wish::Help),
            Word::Dashed("--version") => wish = wish.or(Some(Wish::Version)),
            Word::Plain("help") if verb.is_none() => wish = Some(Wish::Help),
            Word::Plain("version") if verb.is_none() => wish = wish.or(Some(Wish::Version)),
            Word::Plain(word) => {
                has_parameter = verb.is_some();
                verb = verb.or(Some(word));
            }
            _ => {}
        }
    }
    if has_parameter && verb.is_some_and(is_on_log) {
        return Ok(None);
    }
    match wish {
        Some(Wish::Help) => Ok(Some(help_on(alloc, verb.unwrap_or(""))?)),
        Some(Wish::Version) => Ok(Some(String::from_str(alloc, VERSION)?)),
        None => Ok(None),
    }
}

// Whether it is a command that stores or fetches a file of the write-ahead log.
fn is_on_log(word: &str) -> bool {
    matches!(
        word,
        "archive-push" | "archive-push:async" | "archive-get" | "archive-get:async"
    )
}

#[derive(Clone, Copy)]
enum Wish {
    Help,
    Version,
}

// The help of the command that the argument names, or that of all where it names none.
fn help_on(alloc: Global, word: &str) -> Result<String, AllocError> {
    for verb in VERBS {
        if verb_word(verb) == word {
            return help_of(alloc, verb);
        }
    }
    help(alloc)
}

// A command, and the options that it uses.
fn help_of(alloc: Global, verb: Verb) -> Result<String, AllocError> {
    let mut text = String::from_str(alloc, VERSION)?;
    text.push_str(&format!(in alloc; "\n{}{}\n", verb_word(verb), purpose_of(verb))?)?;
    text.push_str("\nOptions:\n")?;
    for option in TABLE {
        let row = row_for(option);
        if has_effect(option) && row.commands.contains(&verb) {
            add_values(alloc, &mut text, option)?;
            text.push_str(&format!(in alloc; "\n      {}\n", meaning_of(option))?)?;
        }
    }
    Ok(text)
}

fn help(alloc: Global) -> Result<String, AllocError> {
    let mut text = String::from_str(alloc, VERSION)?;
    text.push_str(USAGE)?;
    text.push_str("\nCommands:\n")?;
    add_commands(alloc, &mut text)?;
    text.push_str("\nOptions:\n")?;
    for option in TABLE {
        if has_effect(option) {
            add_option(alloc, &mut text, option)?;
        }
    }
    text.push_str(WITHOUT_EFFECT)?;
    for option in TABLE {
        if !has_effect(option) {
            text.push_str(" --")?;
            text.push_str(row_for(option).name)?;
        }
    }
    text.push_str("\n")?;
    Ok(text)
}

// The commands, a line each.
fn add_commands(alloc: Global, text: &mut String) -> Result<(), AllocError> {
    for verb in VERBS {
        text.push_str(&format!(in alloc; "  {}{}\n", verb_word(verb), purpose_of(verb))?)?;
    }
    Ok(())
}

// The parameters of a command and what it does.
fn purpose_of(verb: Verb) -> &'static str {
    match verb {
        Verb::StanzaCreate => ": makes a stanza in the repository",
        Verb::StanzaUpgrade =>
            ": makes the cluster that follows an upgrade the stanza's current one",
        Verb::ArchivePush => " PATH: stores a file of the write-ahead log, for archive_command",
        Verb::ArchiveGet =>
            " NAME PATH: fetches a file of the write-ahead log, for restore_command",
        Verb::Backup => ": makes a backup of a server, running or stopped",
        Verb::Expire => ": removes what retention doesn't keep",
        Verb::Restore =>
            ": restores a backup into an empty folder, or with --delta over an old one",
        Verb::Verify => ": looks for damage in the repository",
        Verb::Info => ": reports backups and WAL",
        Verb::Rehearse => ": tries all of it on empty folders",
        Verb::ArchivePushAsync => ": stores the files of the write-ahead log that are ready",
        Verb::ArchiveGetAsync => " NAME: fetches the segments that follow one into the spool",
    }
}

fn has_effect(option: Opt) -> bool {
    match option {
        Opt::LogTimestamp | Opt::ArchiveModeCheck => false,
        _ => !matches!(row_for(option).kind, OptionKind::Anything),
    }
}

// The option's name, its values, its default, and the types of a restore that use it where others don't.
fn add_values(alloc: Global, text: &mut String, option: Opt) -> Result<(), AllocError> {
    let row = row_for(option);
    let values = values_of(alloc, row.kind)?;
    text.push_str(&format!(in alloc; "  --{}: {}", row.name, values.as_str())?)?;
    let types = types_of(option);
    if !types.is_empty() {
        let types = types.join(alloc, ", ")?;
        text.push_str(&format!(in alloc; "; with type {}", types.as_str())?)?;
    }
    match row.fallback {
        Fallback::Required if types.is_empty() => text.push_str("; required"),
        Fallback::Required => text.push_str("; required there"),
        Fallback::Unset => Ok(()),
        Fallback::Is(value) => text.push_str(&format!(in alloc; "; {value} by default")?),
    }
}

fn add_option(alloc: Global, text: &mut String, option: Opt) -> Result<(), AllocError> {
    add_values(alloc, text, option)?;
    let row = row_for(option);
    if row.commands.len() < VERBS.len() {
        text.push_str("; for")?;
        for verb in row.commands {
            text.push_str(" ")?;
            text.push_str(verb_word(*verb))?;
        }
    }
    text.push_str("\n")
}

fn values_of(alloc: Global, kind: OptionKind) -> Result<String, AllocError> {
    match kind {
        OptionKind::Stanza => String::from_str(alloc, "1 to 64 letters, digits, _ or -"),
        OptionKind::Path | OptionKind::File => String::from_str(alloc, "path"),
        OptionKind::Text => String::from_str(alloc, "text"),
        OptionKind::Anything => String::from_str(alloc, "any"),
        OptionKind::Number { least, most } => format!(in alloc; "{least} to {most}"),
        OptionKind::Size { least, most } => format!(in alloc;
            "{least} to {most} bytes, or with K, M or G"
        ),
        OptionKind::Time { least, most } => format!(in alloc;
            "{least} to {most} seconds, or with m, h or d"
        ),
        OptionKind::Flag => String::from_str(alloc, "y or n"),
        OptionKind::Words(arguments) => arguments.join(alloc, " or "),
        OptionKind::WordsOr { words, least, most } => {
            let words = words.join(alloc, " or ")?;
            format!(in alloc; "{} or {least} to {most}", words.as_str())
        }
        OptionKind::Setting => String::from_str(alloc, "NAME=VALUE, also several times"),
    }
}
