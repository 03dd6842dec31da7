//! Where the configuration lies.

ghost use Rattle.std.specs.Prelude.{◌≡◌, map, string_bytes, None};
ghost use Rattle.options_read.specs.Paths.{add_path, path_after, path_of_arguments};
ghost use Rattle.options_read.specs.Views.{token_view, path_view, path_so_far, Gives};

use crate::arguments::{Token, tokens};
use crate::usage::Usage;
use options_table::TABLE;
use std::alloc::Global;

/// Where the configuration lies.
#[derive(Debug, Drop)]
pub enum ConfigPath {
    /// None is to be read, by `--no-config`.
    Nowhere,
    /// The arguments don't say. A file that isn't there counts as an empty one.
    Usual(String),
    /// The arguments say so. The file has to be there.
    Named(String),
}

const USUAL: &str = "/etc/pgbackrest/pgbackrest.conf";

// The path so far, with what one more token states.
fn add_path(
    alloc: Global,
    found: Option<ConfigPath>,
    token: Token<'_>,
) -> Result<Option<ConfigPath>, Usage>
    ensures { Gives path_so_far result (add_path (path_so_far found) (token_view token.entry)) }
{
    match token {
        Token::Unknown(_) => Ok(found),
        Token::Gives(name, value) => {
            if name != "config" {
                return Ok(found);
            }
            if found.is_some() {
                return Err(Usage::OptionRepeated {
                    name: String::from_str(alloc, name)?,
                });
            }
            if value.is_empty() {
                return Err(Usage::OptionValue {
                    name: String::from_str(alloc, name)?,
                });
            }
            Ok(Some(ConfigPath::Named(String::from_str(alloc, value)?)))
        }
        Token::Denies(name) => {
            if name != "config" {
                return Ok(found);
            }
            if found.is_some() {
                return Err(Usage::OptionRepeated {
                    name: String::from_str(alloc, name)?,
                });
            }
            Ok(Some(ConfigPath::Nowhere))
        }
        Token::Plain(_) => Ok(found),
    }
}

fn path_of(alloc: Global, tokens: &[Token<'_>]) -> Result<Option<ConfigPath>, Usage>
    ensures { Gives path_so_far result (path_after None (map token_view tokens.now)) }
{
    let mut found: Option<ConfigPath> = None;
    for token in tokens {
        found = add_path(alloc, found, *token)?;
    }
    Ok(found)
}

/// Where the arguments say that the configuration lies.
///
/// `config` alone is looked at, so other faults of the arguments aren't reported here. It is refused where it is given
/// twice ([`Usage::OptionRepeated`]), or without a value ([`Usage::OptionValue`]).
#[tactic(auto, unfolding(crate::specs::Paths::path_of_arguments))]
pub fn config_path(alloc: Global, arguments: &[String]) -> Result<ConfigPath, Usage>
    ensures { Gives path_view result (path_of_arguments (map string_bytes arguments.now)) }
{
    let found = tokens(alloc, &TABLE, arguments)?;
    match path_of(alloc, &found)? {
        Some(path) => Ok(path),
        None => Ok(ConfigPath::Usual(String::from_str(alloc, USUAL)?)),
    }
}
