//! The value that a text represents.

ghost use Rattle.std.specs.Prelude.{◌≡◌, option_map, map};
ghost use Rattle.std.specs.List.{list_all};
ghost use Rattle.options_table.specs.Amounts.{amount};
ghost use Rattle.options_table.specs.declared.amount.Units.TheVariants.{Plain};
ghost use Rattle.base_model.specs.StanzaName.{is_stanza, is_stanza_byte, begins_with_dash};
ghost use Rattle.options_table.specs.Values.{value_of, number, amount_of, is_text, is_word, is_setting_byte, is_setting_name, is_shown, is_setting, flag_of, text_where};
ghost use Rattle.options_table.specs.Views.{kind_view, value_view};

use crate::amount::{Units, amount};
use crate::table::OptionKind;

#[derive(Clone, Copy)]
pub enum Value<'a> {
    Absent,
    Flag(bool),
    Number(u32),
    Amount(u64),
    Text(&'a str),
}

fn is_stanza_byte(b: u8) -> bool
    ensures { result ≡ is_stanza_byte b }
{
    (48 <= b && b <= 57) || (65 <= b && b <= 90) || (97 <= b && b <= 122) || b == 95 || b == 45
}

fn all_stanza_bytes(text: &[u8]) -> bool
    ensures { result ≡ list_all is_stanza_byte text.now }
{
    text.iter().all(|b| is_stanza_byte(*b))
}

fn begins_with_dash(text: &[u8]) -> bool
    ensures { result ≡ begins_with_dash text.now }
{
    match text {
        [] => false,
        [b, ..] => *b == 45,
    }
}

fn is_stanza(text: &[u8]) -> bool
    ensures { result ≡ is_stanza text.now }
{
    0 < text.len() && text.len() <= 64 && all_stanza_bytes(text) && !begins_with_dash(text)
}

fn is_text(text: &[u8]) -> bool
    ensures { result ≡ is_text text.now }
{
    0 < text.len() && text.len() <= 1024
}

fn is_word(allowed: &[&str], text: &str) -> bool
    ensures { result ≡ is_word (map (λ w. w.now) allowed.now) text.now }
{
    for w in allowed {
        if *w == text {
            return true;
        }
    }
    false
}

// The settings of a recovery's end, which have options of their own.
const TARGET_SETTINGS: &[&str] = &[
    "recovery_target",
    "recovery_target_action",
    "recovery_target_inclusive",
    "recovery_target_lsn",
    "recovery_target_name",
    "recovery_target_time",
    "recovery_target_timeline",
    "recovery_target_xid",
];

fn is_setting_byte(b: u8) -> bool
    ensures { result ≡ is_setting_byte b }
{
    (97 <= b && b <= 122) || (48 <= b && b <= 57) || b == 95
}

fn all_setting_bytes(text: &[u8]) -> bool
    ensures { result ≡ list_all is_setting_byte text.now }
{
    text.iter().all(|b| is_setting_byte(*b))
}

fn is_setting_name(text: &str) -> bool
    ensures { result ≡ is_setting_name text.now }
{
    !text.is_empty() && all_setting_bytes(text.as_bytes()) && !is_word(TARGET_SETTINGS, text)
}

fn is_shown(b: u8) -> bool
    ensures { result ≡ is_shown b }
{
    32 <= b && b != 127
}

fn all_shown(text: &[u8]) -> bool
    ensures { result ≡ list_all is_shown text.now }
{
    text.iter().all(|b| is_shown(*b))
}

fn is_setting(text: &str) -> bool
    ensures { result ≡ is_setting text.now }
{
    if text.len() > 1024 {
        return false;
    }
    match text.split_once('=') {
        Some((name, value)) => is_setting_name(name) && all_shown(value.as_bytes()),
        None => false,
    }
}

fn flag_of(text: &str) -> Option<Value<'_>>
    ensures { option_map value_view result ≡ flag_of text.now }
{
    if text == "y" {
        return Some(Value::Flag(true));
    }
    if text == "n" {
        return Some(Value::Flag(false));
    }
    None
}

fn text_where(holds: bool, text: &str) -> Option<Value<'_>>
    ensures { option_map value_view result ≡ text_where holds text.now }
{
    if holds { Some(Value::Text(text)) } else { None }
}

fn number(least: u32, most: u32, text: &str) -> Option<Value<'_>>
    ensures { option_map value_view result ≡ option_map number (amount Plain least most text.now) }
{
    match amount(
        Units::Plain,
        u64::from(least),
        u64::from(most),
        text.as_bytes(),
    ) {
        Some(n) => Some(Value::Number(n as u32)),
        None => None,
    }
}

fn measure(units: Units, least: u64, most: u64, text: &str) -> Option<Value<'_>>
    ensures { option_map value_view result ≡ option_map amount_of (amount units least most text.now) }
{
    match amount(units, least, most, text.as_bytes()) {
        Some(n) => Some(Value::Amount(n)),
        None => None,
    }
}

pub fn value_of(kind: OptionKind, text: &str) -> Option<Value<'_>>
    ensures { option_map value_view result ≡ value_of (kind_view kind) text.now }
{
    match kind {
        OptionKind::Stanza => text_where(is_stanza(text.as_bytes()), text),
        OptionKind::Path => text_where(is_text(text.as_bytes()), text),
        OptionKind::Text => text_where(is_text(text.as_bytes()), text),
        OptionKind::Anything => Some(Value::Absent),
        OptionKind::File => if text.is_empty() {
            Some(Value::Absent)
        } else {
            text_where(is_text(text.as_bytes()), text)
        },
        OptionKind::Number { least, most } => number(least, most, text),
        OptionKind::Size { least, most } => measure(Units::Sizes, least, most, text),
        OptionKind::Time { least, most } => measure(Units::Times, least, most, text),
        OptionKind::Flag => flag_of(text),
        OptionKind::Words(allowed) => text_where(is_word(allowed, text), text),
        OptionKind::WordsOr { words, least, most } => if is_word(words, text) {
            Some(Value::Text(text))
        } else {
            number(least, most, text)
        },
        OptionKind::Setting => text_where(is_setting(text), text),
    }
}
