//! The rules of arguments and settings, each with its fault.

ghost use Rattle.std.specs.Prelude.{◌≡◌, ◌++◌, [], map, min, option_map, string_bytes, IfOk, OnOk};
ghost use Rattle.repo_ini.specs.Views.{settings_of};
ghost use Rattle.options_read.specs.Settings.{none_wrong, none_lacking, is_known, is_known_for, each_is_for, is_suited, each_suits, none_twice, counts, known_settings, unknown_keys, verb_named, command_of, stanza_of, utf8_of, parameters_for, count_of, section_word, sections_under, sections_of};
ghost use Rattle.options_read.specs.Sources.{source_view, source_from};
ghost use Rattle.options_read.specs.Views.{given_view, texts, Gives};

use crate::arguments::{Given, is_single};
use crate::source::{Source, is_for, is_lacking, is_wrong, suits, value_given};
use crate::usage::Usage;
use base_text::text_of;
use options_table::{Opt, Verb, row_for, verb_word};
use repo_ini::ConfigLine;
use std::alloc::{AllocError, Global};
use std::collections::HashSet;

pub(crate) fn none_wrong(alloc: Global, source: &Source, table: &[Opt]) -> Result<(), Usage>
    ensures { Gives (λ u. u) result (none_wrong (source_view source.now) table.now) }
{
    for option in table {
        if is_wrong(alloc, source, *option)? {
            return Err(Usage::OptionValue {
                name: String::from_str(alloc, row_for(*option).name)?,
            });
        }
    }
    Ok(())
}

pub(crate) fn none_lacking(alloc: Global, source: &Source, table: &[Opt]) -> Result<(), Usage>
    ensures { Gives (λ u. u) result (none_lacking (source_view source.now) table.now) }
{
    for option in table {
        if is_lacking(source, *option) {
            return Err(Usage::OptionMissing {
                name: String::from_str(alloc, row_for(*option).name)?,
            });
        }
    }
    Ok(())
}

fn is_known(table: &[Opt], name: &str) -> bool
    ensures { result ≡ is_known table.now name.now }
{
    table.iter().any(|o| row_for(*o).name == name)
}

fn is_known_for(table: &[Opt], verb: Verb, name: &str) -> bool
    ensures { result ≡ is_known_for table.now verb name.now }
{
    table
        .iter()
        .any(|o| row_for(*o).name == name && is_for(verb, *o))
}

pub(crate) fn each_is_for(
    alloc: Global,
    table: &[Opt],
    verb: Verb,
    given: &[Given],
) -> Result<(), Usage>
    ensures { Gives (λ u. u) result (each_is_for table.now verb (map given_view given.now)) }
{
    for g in given {
        if !is_known_for(table, verb, g.name.as_str()) {
            return Err(Usage::OptionNotFor {
                name: g.name.clone()?,
            });
        }
    }
    Ok(())
}

fn is_suited(source: &Source, table: &[Opt], name: &str) -> bool
    ensures { result ≡ is_suited (source_view source.now) table.now name.now }
{
    table.iter().any(|o| {
        row_for(*o).name == name && is_for(source.verb, *o) && suits(source, *o)
    })
}

// An option of another type of restore than the one in force.
pub(crate) fn each_suits(alloc: Global, source: &Source, table: &[Opt]) -> Result<(), Usage>
    ensures { Gives (λ u. u) result (each_suits (source_view source.now) table.now (source_view source.now).given) }
{
    for g in &source.given {
        if !is_suited(source, table, g.name.as_str()) {
            return Err(Usage::OptionNotFor {
                name: g.name.clone()?,
            });
        }
    }
    Ok(())
}

// A configuration may be long, so the keys so far are kept as a set.
pub(crate) fn none_twice(alloc: Global, table: &[Opt], lines: &[ConfigLine]) -> Result<(), Usage>
    ensures { Gives (λ u. u) result (none_twice table.now [] (settings_of lines.now)) }
{
    let mut seen: HashSet<(&str, &str)> = HashSet::new(alloc);
    for line in lines {
        let is_new = seen.insert((line.section.as_str(), line.key.as_str()))?;
        if !is_new && is_single(table, line.key.as_str()) {
            return Err(Usage::OptionRepeated {
                name: line.key.clone()?,
            });
        }
    }
    Ok(())
}

fn counts(sections: &[String], section: &str) -> bool
    ensures { result ≡ counts (map string_bytes sections.now) section.now }
{
    for s in sections {
        if s.as_str() == section {
            return true;
        }
    }
    false
}

// The lines that count: known keys, in these sections.
#[tactic(auto, unfolding(crate::specs::Settings::known_settings))]
fn known_settings(table: &[Opt], sections: &[String], lines: Vec<ConfigLine>) -> Vec<ConfigLine>
    ensures { settings_of result.items ≡ known_settings table.now (texts sections.now) (settings_of lines.items) }
{
    let mut lines = lines;
    lines.retain(|line| {
        counts(sections, line.section.as_str()) && is_known(table, line.key.as_str())
    });
    lines
}

// Lines that don't count are dropped here, so that a value is soon found in a long configuration.
pub(crate) fn source_of(
    table: &[Opt],
    verb: Verb,
    given: Vec<Given>,
    sections: Vec<String>,
    lines: Vec<ConfigLine>,
) -> Source
    ensures { source_view result ≡ source_from table.now verb given.items sections.items lines.items }
{
    let lines = known_settings(table, &sections, lines);
    Source {
        verb,
        given,
        lines,
        sections,
    }
}

// The keys in these sections that no option has.
#[tactic(auto, unfolding(crate::specs::Settings::unknown_keys))]
pub(crate) fn unknown_keys(
    alloc: Global,
    table: &[Opt],
    sections: &[String],
    lines: &[ConfigLine],
) -> Result<Vec<String>, AllocError>
    ensures { IfOk result (λ v. texts v.items ≡ unknown_keys table.now (texts sections.now) (settings_of lines.now)) }
{
    let mut keys: Vec<String> = Vec::new(alloc);
    for line in lines {
        if counts(sections, line.section.as_str()) && !is_known(table, line.key.as_str()) {
            keys.push(line.key.clone()?)?;
        }
    }
    Ok(keys)
}

fn verb_named(alloc: Global, verbs: &[Verb], word: &str) -> Result<Verb, Usage>
    ensures { Gives (λ v. v) result (verb_named verbs.now word.now) }
{
    for verb in verbs {
        if verb_word(*verb) == word {
            return Ok(*verb);
        }
    }
    Err(Usage::CommandUnknown {
        word: String::from_str(alloc, word)?,
    })
}

pub(crate) fn command_of(
    alloc: Global,
    verbs: &[Verb],
    word: &Option<String>,
) -> Result<Verb, Usage>
    ensures { Gives (λ v. v) result (command_of verbs.now (option_map string_bytes word.now)) }
{
    match word {
        Some(word) => verb_named(alloc, verbs, word.as_str()),
        None => Err(Usage::CommandMissing),
    }
}

pub(crate) fn stanza_of(alloc: Global, given: &[Given]) -> Result<String, Usage>
    ensures { Gives (λ s. string_bytes s) result (stanza_of (map given_view given.now)) }
{
    match value_given(given, "stanza") {
        Some(stanza) => Ok(String::from_str(alloc, stanza)?),
        None => Err(Usage::OptionMissing {
            name: String::from_str(alloc, "stanza")?,
        }),
    }
}

pub(crate) fn utf8_of(bytes: &[u8]) -> Result<(), Usage>
    ensures { Gives (λ u. u) result (utf8_of bytes.now) }
{
    match text_of(bytes) {
        Some(_) => Ok(()),
        None => Err(Usage::ParameterUtf8),
    }
}

fn parameters_for(verb: Verb) -> usize
    ensures { result ≡ parameters_for verb }
{
    match verb {
        Verb::ArchivePush => 1,
        Verb::ArchiveGet => 2,
        Verb::ArchiveGetAsync => 1,
        _ => 0,
    }
}

fn known_count(count: usize) -> u32
    ensures { result ≡ min count 4294967295 }
{
    if count <= 4294967295 {
        count as u32
    } else {
        4294967295
    }
}

pub(crate) fn count_of(verb: Verb, count: usize) -> Result<(), Usage>
    ensures { Gives (λ u. u) result (count_of verb count) }
{
    if count == parameters_for(verb) {
        Ok(())
    } else {
        Err(Usage::ParameterCount {
            given: known_count(count),
        })
    }
}

fn section_word(verb: Verb) -> &'static str
    ensures { result.now ≡ section_word verb }
{
    match verb {
        Verb::StanzaCreate => "stanza-create",
        Verb::StanzaUpgrade => "stanza-upgrade",
        Verb::ArchivePush => "archive-push",
        Verb::ArchivePushAsync => "archive-push",
        Verb::ArchiveGet => "archive-get",
        Verb::ArchiveGetAsync => "archive-get",
        Verb::Backup => "backup",
        Verb::Expire => "expire",
        Verb::Restore => "restore",
        Verb::Verify => "verify",
        Verb::Info => "info",
        Verb::Rehearse => "rehearse",
    }
}

// Adds the section of a command under a name, and that of all commands.
fn add_sections(
    alloc: Global,
    sections: &mut Vec<String>,
    name: &str,
    word: &str,
) -> Result<(), AllocError>
    ensures { OnOk result (texts sections.new.items ≡ texts sections.old.items ++ sections_under name.now word.now) }
{
    sections.push(format!(in alloc; "{name}:{word}")?)?;
    sections.push(String::from_str(alloc, name)?)?;
    Ok(())
}

#[tactic(auto, unfolding(crate::specs::Settings::sections_of))]
pub(crate) fn sections_of(
    alloc: Global,
    stanza: &str,
    verb: Verb,
) -> Result<Vec<String>, AllocError>
    ensures { IfOk result (λ v. map string_bytes v.items ≡ sections_of stanza.now verb) }
{
    let word = section_word(verb);
    let mut sections = Vec::new(alloc);
    add_sections(alloc, &mut sections, stanza, word)?;
    add_sections(alloc, &mut sections, "global", word)?;
    Ok(sections)
}
