//! Where the values of options come from.

ghost use Rattle.std.specs.Prelude.{◌≡◌, ◌&&◌, map, option_map, bytes_eq, is_none, IfOk};
ghost use Rattle.std.specs.List.{list_any};
ghost use Rattle.repo_ini.specs.Views.{settings_of};
ghost use Rattle.options_table.specs.Table.{verb_eq, is_for, fallback_text, is_required};
ghost use Rattle.options_read.specs.Settings.{value_given, value_in, value_among, value_configured, stated, type_in, suits, in_force, value, all_given, all_in, all_among, all_configured, stated_all, argument, is_wrong, is_lacking};
ghost use Rattle.options_table.specs.Values.{value_of};
ghost use Rattle.options_table.specs.Views.{fallback_view, kind_view, value_view};
ghost use Rattle.options_read.specs.Views.{given_view, texts, shown};
ghost use Rattle.options_read.specs.Sources.{source_view};

use crate::arguments::Given;
use options_table::{Fallback, Opt, OptionKind, Place, Value, Verb, row_for, types_of, value_of};
use repo_ini::ConfigLine;
use std::alloc::{AllocError, Global};

#[derive(Drop)]
pub(crate) struct Source {
    pub verb: Verb,
    pub given: Vec<Given>,
    pub lines: Vec<ConfigLine>,
    pub sections: Vec<String>,
}

pub(crate) fn value_given<'a>(given: &'a [Given], name: &str) -> Option<&'a str>
    ensures { option_map (λ t. t.now) result ≡ value_given (map given_view given.now) name.now }
{
    for g in given {
        if g.name.as_str() == name {
            return Some(g.value.as_str());
        }
    }
    None
}

fn value_in<'a>(lines: &'a [ConfigLine], section: &str, key: &str) -> Option<&'a str>
    ensures { option_map (λ t. t.now) result ≡ value_in (settings_of lines.now) section.now key.now }
{
    for line in lines {
        if line.section.as_str() == section && line.key.as_str() == key {
            return Some(line.value.as_str());
        }
    }
    None
}

fn value_among<'a>(lines: &'a [ConfigLine], sections: &[String], key: &str) -> Option<&'a str>
    ensures { option_map (λ t. t.now) result ≡ value_among (settings_of lines.now) (texts sections.now) key.now }
{
    for section in sections {
        match value_in(lines, section.as_str(), key) {
            Some(value) => return Some(value),
            None => {}
        }
    }
    None
}

fn value_configured<'a>(place: Place, source: &'a Source, name: &str) -> Option<&'a str>
    ensures { option_map (λ t. t.now) result ≡ value_configured place (source_view source.now) name.now }
{
    match place {
        Place::CommandLine => None,
        Place::Anywhere => value_among(&source.lines, &source.sections, name),
    }
}

fn is_among(commands: &[Verb], verb: Verb) -> bool
    ensures { result ≡ list_any (λ v. verb_eq v verb) commands.now }
{
    commands.iter().any(|v| *v == verb)
}

pub(crate) fn is_for(verb: Verb, option: Opt) -> bool
    ensures { result ≡ is_for verb option }
{
    is_among(row_for(option).commands, verb)
}

fn fallback_text(fallback: Fallback) -> Option<&'static str>
    ensures { option_map (λ t. t.now) result ≡ fallback_text (fallback_view fallback) }
{
    match fallback {
        Fallback::Required => None,
        Fallback::Unset => None,
        Fallback::Is(value) => Some(value),
    }
}

fn is_required(fallback: Fallback) -> bool
    ensures { result ≡ is_required (fallback_view fallback) }
{
    match fallback {
        Fallback::Required => true,
        Fallback::Unset => false,
        Fallback::Is(_) => false,
    }
}

fn stated<'a>(source: &'a Source, option: Opt) -> Option<&'a str>
    ensures { option_map (λ t. t.now) result ≡ stated (source_view source.now) option }
{
    if !is_for(source.verb, option) {
        return None;
    }
    let row = row_for(option);
    match value_given(&source.given, row.name) {
        Some(value) => Some(value),
        None => value_configured(row.place, source, row.name),
    }
}

// The type of restore in force.
fn type_in<'a>(source: &'a Source) -> &'a str
    ensures { result.now ≡ type_in (source_view source.now) }
{
    if let Some(word) = stated(source, Opt::RestoreType) {
        return word;
    }
    match fallback_text(row_for(Opt::RestoreType).fallback) {
        Some(word) => word,
        None => "",
    }
}

fn is_one_of(words: &[&str], word: &str) -> bool
    ensures { result ≡ list_any (λ t. bytes_eq t word.now) (map (λ t. t.now) words.now) }
{
    for w in words {
        if *w == word {
            return true;
        }
    }
    false
}

// Whether the option isn't bound to other types of restore than the one in force.
pub(crate) fn suits(source: &Source, option: Opt) -> bool
    ensures { result ≡ suits (source_view source.now) option }
{
    let types = types_of(option);
    types.is_empty() || is_one_of(types, type_in(source))
}

#[tactic(auto, unfolding(crate::specs::Settings::in_force))]
fn in_force<'a>(source: &'a Source, option: Opt) -> Option<&'a str>
    ensures { option_map (λ t. t.now) result ≡ in_force (source_view source.now) option }
{
    if !suits(source, option) {
        return None;
    }
    match stated(source, option) {
        Some(value) => Some(value),
        None => fallback_text(row_for(option).fallback),
    }
}

#[tactic(auto, unfolding(crate::specs::Settings::value))]
pub(crate) fn value<'a>(source: &'a Source, option: Opt) -> Option<Value<'a>>
    ensures { option_map value_view result ≡ value (source_view source.now) option }
{
    match in_force(source, option) {
        Some(text) => value_of(row_for(option).kind, text),
        None => None,
    }
}

fn all_given<'a>(alloc: Global, given: &'a [Given], name: &str) -> Result<Vec<&'a str>, AllocError>
    ensures { IfOk result (λ v. shown v.items ≡ all_given (map given_view given.now) name.now) }
{
    let mut values: Vec<&'a str> = Vec::new(alloc);
    for g in given {
        if g.name.as_str() == name {
            values.push(g.value.as_str())?;
        }
    }
    Ok(values)
}

fn all_in<'a>(
    alloc: Global,
    lines: &'a [ConfigLine],
    section: &str,
    key: &str,
) -> Result<Vec<&'a str>, AllocError>
    ensures { IfOk result (λ v. shown v.items ≡ all_in (settings_of lines.now) section.now key.now) }
{
    let mut values: Vec<&'a str> = Vec::new(alloc);
    for line in lines {
        if line.section.as_str() == section && line.key.as_str() == key {
            values.push(line.value.as_str())?;
        }
    }
    Ok(values)
}

fn all_among<'a>(
    alloc: Global,
    lines: &'a [ConfigLine],
    sections: &[String],
    key: &str,
) -> Result<Vec<&'a str>, AllocError>
    ensures { IfOk result (λ v. shown v.items ≡ all_among (settings_of lines.now) (texts sections.now) key.now) }
{
    for section in sections {
        let values = all_in(alloc, lines, section.as_str(), key)?;
        if !values.is_empty() {
            return Ok(values);
        }
    }
    Ok(Vec::new(alloc))
}

fn all_configured<'a>(
    alloc: Global,
    place: Place,
    source: &'a Source,
    name: &str,
) -> Result<Vec<&'a str>, AllocError>
    ensures { IfOk result (λ v. shown v.items ≡ all_configured place (source_view source.now) name.now) }
{
    match place {
        Place::CommandLine => Ok(Vec::new(alloc)),
        Place::Anywhere => all_among(alloc, &source.lines, &source.sections, name),
    }
}

// All values in force of an option that may be given more than once.
#[tactic(auto, unfolding(crate::specs::Settings::stated_all))]
pub(crate) fn stated_all<'a>(
    alloc: Global,
    source: &'a Source,
    option: Opt,
) -> Result<Vec<&'a str>, AllocError>
    ensures { IfOk result (λ v. shown v.items ≡ stated_all (source_view source.now) option) }
{
    if !is_for(source.verb, option) || !suits(source, option) {
        return Ok(Vec::new(alloc));
    }
    let row = row_for(option);
    let given = all_given(alloc, &source.given, row.name)?;
    if !given.is_empty() {
        return Ok(given);
    }
    all_configured(alloc, row.place, source, row.name)
}

fn has_wrong(kind: OptionKind, texts: &[&str]) -> bool
    ensures { result ≡ list_any (λ t. is_none (value_of (kind_view kind) t)) (shown texts.now) }
{
    for text in texts {
        if value_of(kind, *text).is_none() {
            return true;
        }
    }
    false
}

pub(crate) fn argument<'a>(source: &'a Source, option: Opt) -> Option<&'a str>
    ensures { option_map (λ t. t.now) result ≡ argument (source_view source.now) option }
{
    value_given(&source.given, row_for(option).name)
}

pub(crate) fn is_wrong(alloc: Global, source: &Source, option: Opt) -> Result<bool, AllocError>
    ensures { IfOk result (λ b. b ≡ is_wrong (source_view source.now) option) }
{
    if in_force(source, option).is_some() && value(source, option).is_none() {
        return Ok(true);
    }
    let stated = stated_all(alloc, source, option)?;
    Ok(has_wrong(row_for(option).kind, &stated))
}

pub(crate) fn is_lacking(source: &Source, option: Opt) -> bool
    ensures { result ≡ is_lacking (source_view source.now) option }
{
    is_for(source.verb, option)
        && suits(source, option)
        && is_required(row_for(option).fallback)
        && in_force(source, option).is_none()
}
