//! Arguments: options, the command, parameters.

ghost use Rattle.std.specs.Prelude.{◌≡◌, ◌++◌, ◌∷◌, [], map, option_map, string_bytes, IfOk, Ok};
ghost use Rattle.std.specs.List.{list_any};
ghost use Rattle.options_read.specs.Words.{plain, style_of, style_named, given_shape, denied_shape, other_shape, bare_shape, option_shape, is_plain, body_of, shape, tokens, is_given, is_single, is_again, add_token, add_tokens, read_arguments, with_option, no_arguments};
ghost use Rattle.options_table.specs.Views.{kind_view};
ghost use Rattle.options_read.specs.Views.{style_view, token_view, shape_view, arguments_view, given_view, Gives};

use crate::text::{after_prefix, split_equals};
use crate::usage::Usage;
use options_table::{Opt, OptionKind, is_repeatable, row_for};
use std::alloc::{AllocError, Global};

#[derive(Clone, Copy)]
pub(crate) enum Style {
    Switch,
    Valued,
    Deniable,
}

#[derive(Clone, Copy)]
pub(crate) enum Token<'a> {
    Unknown(&'a str),
    Gives(&'a str, &'a str),
    Denies(&'a str),
    Plain(&'a str),
}

#[derive(Clone, Copy)]
pub(crate) enum Shape<'a> {
    Done(Token<'a>),
    Wants(&'a str),
}

#[derive(Drop)]
pub(crate) struct Given {
    pub name: String,
    pub value: String,
}

#[derive(Drop)]
pub(crate) struct Words {
    pub command: Option<String>,
    pub parameters: Vec<String>,
    pub given: Vec<Given>,
}

fn style_of(kind: OptionKind) -> Style
    ensures { style_view result ≡ style_of (kind_view kind) }
{
    match kind {
        OptionKind::Stanza => Style::Valued,
        OptionKind::Path => Style::Valued,
        OptionKind::Text => Style::Valued,
        OptionKind::Anything => Style::Valued,
        OptionKind::File => Style::Deniable,
        OptionKind::Number { least: _, most: _ } => Style::Valued,
        OptionKind::Size { least: _, most: _ } => Style::Valued,
        OptionKind::Time { least: _, most: _ } => Style::Valued,
        OptionKind::Flag => Style::Switch,
        OptionKind::Words(_) => Style::Valued,
        OptionKind::WordsOr {
            words: _,
            least: _,
            most: _,
        } => Style::Valued,
        OptionKind::Setting => Style::Valued,
    }
}

fn style_named(table: &[Opt], name: &str) -> Option<Style>
    ensures { option_map style_view result ≡ style_named table.now name.now }
{
    for option in table {
        let row = row_for(*option);
        if row.name == name {
            return Some(style_of(row.kind));
        }
    }
    None
}

fn given_shape<'a>(style: Option<Style>, word: &'a str, name: &'a str, value: &'a str) -> Shape<'a>
    ensures { shape_view result ≡ given_shape (option_map style_view style) word.now name.now value.now }
{
    match style {
        Some(_) => Shape::Done(Token::Gives(name, value)),
        None => Shape::Done(Token::Unknown(word)),
    }
}

fn denied_shape<'a>(style: Option<Style>, word: &'a str, name: &'a str) -> Shape<'a>
    ensures { shape_view result ≡ denied_shape (option_map style_view style) word.now name.now }
{
    match style {
        Some(Style::Switch) => Shape::Done(Token::Gives(name, "n")),
        Some(Style::Deniable) => Shape::Done(Token::Denies(name)),
        Some(Style::Valued) => Shape::Done(Token::Unknown(word)),
        None => Shape::Done(Token::Unknown(word)),
    }
}

fn other_shape<'a>(table: &[Opt], word: &'a str, body: &'a str) -> Shape<'a>
    ensures { shape_view result ≡ other_shape table.now word.now body.now }
{
    match after_prefix("no-", body) {
        Some(name) => denied_shape(style_named(table, name), word, name),
        None => Shape::Done(Token::Unknown(word)),
    }
}

fn bare_shape<'a>(style: Option<Style>, table: &[Opt], word: &'a str, body: &'a str) -> Shape<'a>
    ensures { shape_view result ≡ bare_shape (option_map style_view style) table.now word.now body.now }
{
    match style {
        Some(Style::Switch) => Shape::Done(Token::Gives(body, "y")),
        Some(Style::Deniable) => Shape::Wants(body),
        Some(Style::Valued) => Shape::Wants(body),
        None => other_shape(table, word, body),
    }
}

fn option_shape<'a>(table: &[Opt], word: &'a str, body: &'a str) -> Shape<'a>
    ensures { shape_view result ≡ option_shape table.now word.now body.now }
{
    match split_equals(body) {
        Some((name, value)) => given_shape(style_named(table, name), word, name, value),
        None => bare_shape(style_named(table, body), table, word, body),
    }
}

fn is_plain(word: &[u8]) -> bool
    ensures { result ≡ is_plain word.now }
{
    match word {
        [] => true,
        [b, ..] => *b != b'-',
    }
}

fn body_of(word: &str) -> Option<&str>
    ensures { option_map (λ t. t.now) result ≡ body_of word.now }
{
    if word.len() <= 2 {
        return None;
    }
    after_prefix("--", word)
}

fn shape_of<'a>(table: &[Opt], word: &'a str) -> Shape<'a>
    ensures { shape_view result ≡ shape table.now word.now }
{
    if is_plain(word.as_bytes()) {
        return Shape::Done(Token::Plain(word));
    }
    match body_of(word) {
        Some(body) => option_shape(table, word, body),
        None => Shape::Done(Token::Unknown(word)),
    }
}

pub(crate) fn tokens<'a>(
    alloc: Global,
    table: &[Opt],
    arguments: &'a [String],
) -> Result<Vec<Token<'a>>, AllocError>
    ensures { IfOk result (λ v. map token_view v.items ≡ tokens table.now (map string_bytes arguments.now)) }
{
    let mut found: Vec<Token<'a>> = Vec::new(alloc);
    let mut waits: Option<&'a str> = None;
    for word in arguments {
        match waits {
            Some(name) => {
                found.push(Token::Gives(name, word.as_str()))?;
                waits = None;
            }
            None => match shape_of(table, word.as_str()) {
                Shape::Done(token) => found.push(token)?,
                Shape::Wants(name) => waits = Some(name),
            },
        }
    }
    if let Some(name) = waits {
        found.push(Token::Gives(name, ""))?;
    }
    Ok(found)
}

#[tactic(auto, using(crate::proofs::Lists::any_shown))]
fn is_given(given: &[Given], name: &str) -> bool
    ensures { result ≡ is_given (map given_view given.now) name.now }
{
    for g in given {
        if g.name.as_str() == name {
            return true;
        }
    }
    false
}

pub(crate) fn is_single(table: &[Opt], name: &str) -> bool
    ensures { result ≡ is_single table.now name.now }
{
    table.iter().any(|o| {
        let row = row_for(*o);
        row.name == name && !is_repeatable(row.kind)
    })
}

fn is_again(table: &[Opt], arguments: &Words, name: &str) -> bool
    ensures { result ≡ is_again table.now (arguments_view arguments.now) name.now }
{
    is_single(table, name) && is_given(&arguments.given, name)
}

fn add_option(alloc: Global, mut arguments: Words, name: &str, value: &str) -> Result<Words, Usage>
    ensures { Gives arguments_view result (Ok (with_option (arguments_view arguments) name.now value.now)) }
{
    let name = String::from_str(alloc, name)?;
    let value = String::from_str(alloc, value)?;
    arguments.given.push(Given { name, value })?;
    Ok(arguments)
}

fn add_word(alloc: Global, mut arguments: Words, word: &str) -> Result<Words, Usage>
    ensures { Gives arguments_view result (add_token [] (arguments_view arguments) (plain word.now)) }
{
    let word = String::from_str(alloc, word)?;
    if arguments.command.is_none() {
        arguments.command = Some(word);
    } else {
        arguments.parameters.push(word)?;
    }
    Ok(arguments)
}

fn add_token(
    alloc: Global,
    table: &[Opt],
    arguments: Words,
    token: Token<'_>,
) -> Result<Words, Usage>
    ensures { Gives arguments_view result (add_token table.now (arguments_view arguments) (token_view token.entry)) }
{
    match token {
        Token::Unknown(word) => Err(Usage::OptionUnknown {
            word: String::from_str(alloc, word)?,
        }),
        Token::Gives(name, value) => {
            if is_again(table, &arguments, name) {
                return Err(Usage::OptionRepeated {
                    name: String::from_str(alloc, name)?,
                });
            }
            if value.is_empty() {
                return Err(Usage::OptionValue {
                    name: String::from_str(alloc, name)?,
                });
            }
            add_option(alloc, arguments, name, value)
        }
        Token::Denies(name) => {
            if is_again(table, &arguments, name) {
                return Err(Usage::OptionRepeated {
                    name: String::from_str(alloc, name)?,
                });
            }
            add_option(alloc, arguments, name, "")
        }
        Token::Plain(word) => add_word(alloc, arguments, word),
    }
}

fn add_tokens(alloc: Global, table: &[Opt], tokens: &[Token<'_>]) -> Result<Words, Usage>
    ensures { Gives arguments_view result (add_tokens table.now no_arguments (map token_view tokens.now)) }
{
    let mut arguments = Words {
        command: None,
        parameters: Vec::new(alloc),
        given: Vec::new(alloc),
    };
    for token in tokens {
        arguments = add_token(alloc, table, arguments, *token)?;
    }
    Ok(arguments)
}

pub(crate) fn read_arguments(
    alloc: Global,
    table: &[Opt],
    arguments: &[String],
) -> Result<Words, Usage>
    ensures { Gives arguments_view result (read_arguments table.now (map string_bytes arguments.now)) }
{
    let found = tokens(alloc, table, arguments)?;
    add_tokens(alloc, table, &found)
}
