// What the arguments and their configuration ask for, for the messages to a person. The command reads both by
// itself.
use crate::command_line::value_given;
use adapters_files::RealInputFiles;
use base_devices::InputFiles;
use options_read::{Command, ConfigPath, LogWord, config_path, resolve_arguments};
use std::alloc::{AllocError, Global};

// A configuration has at most 1 MiB.
const CONFIG_LIMIT: usize = 1 << 20;

/// What is asked for.
#[derive(Drop)]
pub struct Asked {
    /// None where the arguments or the configuration are refused.
    pub command: Option<Command>,
    /// Which of the lines standard error has.
    pub level: LogWord,
    /// The configuration that is looked at.
    pub config: Option<Looked>,
}

/// A configuration.
#[derive(Drop)]
pub struct Looked {
    pub path: String,
    pub is_there: bool,
}

/// What these arguments ask for.
pub fn read_asked(rt: HostRuntime, arguments: &[String]) -> Result<Asked, AllocError> {
    let alloc = rt.alloc();
    let mut bytes = Vec::new(alloc);
    let mut config = None;
    if let Ok(ConfigPath::Usual(path) | ConfigPath::Named(path)) = config_path(alloc, arguments) {
        let is_there = read(rt, &path, &mut bytes);
        config = Some(Looked { path, is_there });
    }
    let command = resolve(alloc, arguments, &bytes);
    let level = match &command {
        Some(command) => command.options.log_level_stderr,
        None => level_for_all(alloc, arguments, &bytes)?,
    };
    Ok(Asked {
        command,
        level,
        config,
    })
}

fn resolve(alloc: Global, arguments: &[String], config: &[u8]) -> Option<Command> {
    if config.len() > CONFIG_LIMIT {
        return None;
    }
    resolve_arguments(alloc, arguments, config).ok()
}

// Adds the bytes of a configuration, of one that is too long not all, and returns whether it is there. One that can't
// be read has none.
fn read(rt: HostRuntime, path: &str, bytes: &mut Vec<u8>) -> bool {
    let mut source = RealInputFiles::new(rt);
    match source.open(path) {
        Ok(true) => {}
        Ok(false) => return false,
        Err(_) => return true,
    }
    let mut buf = [0u8; 32768];
    for _ in 0..CONFIG_LIMIT {
        let count = source.read(&mut buf).unwrap_or(0);
        if count == 0 || bytes.len() > CONFIG_LIMIT {
            return true;
        }
        if bytes.extend_from_slice(&buf[..count]).is_err() {
            return true;
        }
    }
    true
}

// What standard error gets where the command is refused: what is asked for whichever command it is, or else by the
// arguments alone.
fn level_for_all(
    alloc: Global,
    arguments: &[String],
    config: &[u8],
) -> Result<LogWord, AllocError> {
    let stanza = value_given(arguments, "stanza").unwrap_or("any");
    let level = value_given(arguments, "log-level-stderr");
    if let Some(command) = resolve(alloc, &plain(alloc, stanza, level)?, config) {
        return Ok(command.options.log_level_stderr);
    }
    match resolve(alloc, &plain(alloc, "any", level)?, &[]) {
        Some(command) => Ok(command.options.log_level_stderr),
        None => Ok(LogWord::Nothing),
    }
}

// The arguments of a command that needs nothing but a stanza.
fn plain(alloc: Global, stanza: &str, level: Option<&str>) -> Result<Vec<String>, AllocError> {
    let mut arguments = Vec::new(alloc);
    arguments.push(String::from_str(alloc, "info")?)?;
    arguments.push(format!(in alloc; "--stanza={stanza}")?)?;
    if let Some(level) = level {
        arguments.push(format!(in alloc; "--log-level-stderr={level}")?)?;
    }
    Ok(arguments)
}
