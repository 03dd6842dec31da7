//! From a configuration to its settings.

ghost use Rattle.std.specs.Prelude.{◌≡◌, ◌<◌, ◌^◌, ◌+◌, length, option_map, IfOk};
ghost use Rattle.repo_ini.specs.Config.{set, step, settings};
ghost use Rattle.repo_ini.specs.Views.{config_of, row_view, settings_of, Gives};

use crate::cuts::next_piece;
use crate::fault::IniFault;
use crate::row::{Row, row_of};
use std::alloc::{AllocError, Global};

/// A key of a configuration with its value, both without blanks and tabs at their ends.
#[derive(Debug, Drop)]
pub struct ConfigLine {
    /// The section that it is in, as `global` for `[global]`.
    pub section: String,
    pub key: String,
    pub value: String,
    /// Its line, counted from 1.
    pub line: u32,
}

// The section that is open, and the lines so far.
#[derive(Drop)]
pub(crate) struct Config {
    open: Option<String>,
    lines: Vec<ConfigLine>,
}

fn set(
    alloc: Global,
    mut config: Config,
    line: u32,
    key: &str,
    value: &str,
) -> Result<Option<Config>, AllocError>
    ensures { IfOk result (λ o. option_map config_of o ≡ set (config_of config) line key.now value.now) }
{
    let section = match &config.open {
        Some(name) => name.clone()?,
        None => return Ok(None),
    };
    let key = String::from_str(alloc, key)?;
    let value = String::from_str(alloc, value)?;
    config.lines.push(ConfigLine {
        section,
        key,
        value,
        line,
    })?;
    Ok(Some(config))
}

// The configuration with one more line, where the line is valid.
fn step(
    alloc: Global,
    config: Config,
    line: u32,
    row: Row<'_>,
) -> Result<Option<Config>, AllocError>
    ensures { IfOk result (λ o. option_map config_of o ≡ step (config_of config) line (row_view row.entry)) }
{
    match row {
        Row::Blank => Ok(Some(config)),
        Row::Opens(name) => Ok(Some(Config {
            open: Some(String::from_str(alloc, name)?),
            lines: config.lines,
        })),
        Row::Sets(key, value) => set(alloc, config, line, key, value),
        Row::Bad => Ok(None),
    }
}

/// The settings of a configuration, in the order in which they are there.
///
/// A line that isn't valid is reported as [`IniFault::Syntax`]: one that is neither empty, nor a comment, nor a
/// section's name, nor a key with a value below one; or one that isn't UTF-8. A fault of a sum never comes.
pub fn read_config(alloc: Global, bytes: &[u8]) -> Result<Vec<ConfigLine>, IniFault>
    requires { length bytes.now + 1 < 2 ^ 32 }
    ensures { Gives (λ v. settings_of v.items) result (settings bytes.now) }
{
    let mut config = Config {
        open: None,
        lines: Vec::new(alloc),
    };
    let mut line: u32 = 0;
    let mut rest = Some(bytes);
    while let Some(left) = rest {
        let (piece, after) = next_piece(left);
        line += 1;
        match step(alloc, config, line, row_of(piece))? {
            Some(next) => config = next,
            None => return Err(IniFault::Syntax { line }),
        }
        rest = after;
    }
    Ok(config.lines)
}
