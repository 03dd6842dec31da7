//! What one line of a configuration says.

ghost use Rattle.std.specs.Prelude.{◌≡◌};
ghost use Rattle.repo_ini.specs.Config.{trim, row_of, plain_row, key_row, section_row};
ghost use Rattle.repo_ini.specs.Views.{row_view};

use crate::cuts::{cut_at, name_in, trim_end, trim_start};
use base_text::text_of;

#[derive(Clone, Copy)]
pub(crate) enum Row<'a> {
    Blank,
    Opens(&'a str),
    Sets(&'a str, &'a str),
    Bad,
}

fn trim(text: &[u8]) -> &[u8]
    ensures { result.now ≡ trim text.now }
{
    trim_end(trim_start(text))
}

fn section_row(name: &[u8]) -> Row<'_>
    ensures { row_view result ≡ section_row name.now }
{
    match text_of(name) {
        Some(name) => Row::Opens(name),
        None => Row::Bad,
    }
}

fn key_row<'a>(key: &'a [u8], value: &'a [u8]) -> Row<'a>
    ensures { row_view result ≡ key_row key.now value.now }
{
    let Some(key) = text_of(key) else {
        return Row::Bad;
    };
    let Some(value) = text_of(value) else {
        return Row::Bad;
    };
    if key.is_empty() {
        return Row::Bad;
    }
    Row::Sets(key, value)
}

fn plain_row(text: &[u8]) -> Row<'_>
    ensures { row_view result ≡ plain_row text.now }
{
    if let Some(name) = name_in(text) {
        return section_row(name);
    }
    match cut_at(b'=', text) {
        Some((key, value)) => key_row(trim_end(key), trim_start(value)),
        None => Row::Bad,
    }
}

pub(crate) fn row_of(line: &[u8]) -> Row<'_>
    ensures { row_view result ≡ row_of line.now }
{
    if text_of(line).is_none() {
        return Row::Bad;
    }
    let text = trim(line);
    match text {
        [] => Row::Blank,
        [b'#', ..] => Row::Blank,
        _ => plain_row(text),
    }
}
