// The log file: what a command writes to standard output, with its time, for `log-path` and `log-level-file`.
ghost use Rattle.std.specs.Prelude.{◌≤◌, IfSome};
ghost use Rattle.base_devices.specs.States.{last_second};

use crate::guards::{is_below_another, is_root};
use crate::levels::{Level, Line, level_of};
use options_read::{Command, LogWord};
use options_table::verb_word;
use repo_names::date_of;
use std::alloc::{AllocError, Global};
use std::fs::{DirBuilder, OpenOptions};
use std::io::{ErrorKind, Write};
use std::os::unix::fs::{DirBuilderExt, OpenOptionsExt};
use std::time::{SystemTime, UNIX_EPOCH};
use std::{fs, io};

const FILE_MODE: u32 = 0o640;

const FOLDER_MODE: u32 = 0o750;

// The last second of the year 9999.
const LAST_SECOND: u64 = 253_402_300_799;

const VERSION: &str = "0.1";

const START: &str = "-------------------PROCESS START-------------------\n";

// As wide as what comes before the text of a line.
const MARGIN: &str = "                                     ";

/// The log file of a command. Nothing depends on it: what can't be written is reported on standard error.
#[derive(Drop)]
pub struct Log {
    rt: HostRuntime,
    verb: &'static str,
    folder: String,
    path: String,
    level: LogWord,
    // what isn't written yet
    text: Vec<u8>,
    has_lines: bool,
}

impl Log {
    /// The log that the command asks for. Root leaves none where the folder's user could not continue with it.
    pub fn of(rt: HostRuntime, command: &Command) -> Result<Option<Log>, AllocError> {
        let level = command.options.log_level_file;
        let folder = match &command.options.log_path {
            Some(folder) if !matches!(level, LogWord::Nothing) => folder.clone()?,
            _ => return Ok(None),
        };
        if is_root() && is_below_another(&rt, &folder) {
            return Ok(None);
        }
        let mut text = Vec::new(rt.alloc());
        text.extend_from_slice(START.as_bytes())?;
        Ok(Some(Log {
            rt,
            verb: verb_word(command.verb),
            path: path_of(rt.alloc(), &folder, command)?,
            folder,
            level,
            text,
            has_lines: false,
        }))
    }

    /// Before the command, which has these arguments.
    pub fn begin(&mut self, arguments: &[String]) -> Result<(), AllocError> {
        if Level::Info.is_in(self.level) {
            let mut text = format!(in self.rt.alloc(); "{} command begin {VERSION}:", self.verb)?;
            for word in arguments {
                text.push_str(" ")?;
                text.push_str(word)?;
            }
            self.add_now(Level::Info, &text)?;
            self.write();
        }
        Ok(())
    }

    /// Adds a line of the output, or one that explains it, where the log has such ones.
    pub fn add(&mut self, line: &Line) -> Result<(), AllocError> {
        let (_, text) = level_of(&line.text);
        if !line.level.is_in(self.level) {
            Ok(())
        } else if line.explains {
            self.add_line(MARGIN, &line.text)
        } else {
            self.add_now(line.level, text)
        }
    }

    /// After the command.
    pub fn end(&mut self, status: u8) -> Result<(), AllocError> {
        if Level::Info.is_in(self.level) {
            let text = format!(in self.rt.alloc(); "{} command end: status {status}", self.verb)?;
            self.add_now(Level::Info, &text)?;
        }
        self.write();
        Ok(())
    }

    fn add_now(&mut self, level: Level, text: &str) -> Result<(), AllocError> {
        let now = now(&self.rt)?;
        let word = level.word();
        let prefix = format!(in self.rt.alloc(); "{now} P00 {word:>6}: ")?;
        self.add_line(&prefix, text)
    }

    // A control character is shown as `?`.
    fn add_line(&mut self, prefix: &str, text: &str) -> Result<(), AllocError> {
        self.text.extend_from_slice(prefix.as_bytes())?;
        for byte in text.as_bytes() {
            self.text
                .push(if byte.is_ascii_control() { b'?' } else { *byte })?;
        }
        self.has_lines = true;
        self.text.extend_from_slice(b"\n")
    }

    // Writes what was added as one piece: other processes may write to the same file.
    fn write(&mut self) {
        if !self.has_lines {
            return;
        }
        if let Err(e) = append(&self.rt, &self.folder, &self.path, &self.text) {
            let path = self.path.as_str();
            let _ = eprintln!(self.rt; "WARN: unable to write log file '{path}': {e}");
        }
        self.text.clear();
        self.has_lines = false;
    }
}

// The file of the stanza and the command. A name has `-` for the `:` of a command in the background.
fn path_of(alloc: Global, folder: &str, command: &Command) -> Result<String, AllocError> {
    let stanza = command.stanza.as_str();
    match verb_word(command.verb).split_once(':') {
        Some((first, rest)) => format!(in alloc; "{folder}/{stanza}-{first}-{rest}.log"),
        None => {
            let word = verb_word(command.verb);
            format!(in alloc; "{folder}/{stanza}-{word}.log")
        }
    }
}

fn append(rt: &HostRuntime, folder: &str, path: &str, text: &[u8]) -> io::Result<()> {
    DirBuilder::new()
        .mode(FOLDER_MODE)
        .recursive(true)
        .create(rt, folder)?;
    demand_plain(rt, path)?;
    let mut how = OpenOptions::new();
    how.append(true).create(true).mode(FILE_MODE);
    how.open(rt, path)?.write_all(text)
}

// Opening a pipe would wait for a reader.
fn demand_plain(rt: &HostRuntime, path: &str) -> io::Result<()> {
    match fs::symlink_metadata(rt, path) {
        Ok(seen) if !seen.is_file() => {
            Err(io::Error::new(ErrorKind::InvalidInput, "it is no plain file"))
        }
        Err(e) if e.kind() != ErrorKind::NotFound => Err(e),
        _ => Ok(()),
    }
}

// The time, in UTC.
fn now(rt: &HostRuntime) -> Result<String, AllocError> {
    let (second, millis) = since_1970(rt).unwrap_or((0, 0));
    let date = date_of(second);
    let (year, month, day) = (date.year, date.month, date.day);
    let (hour, minute, second) = (second / 3600 % 24, second / 60 % 60, second % 60);
    format!(in rt.alloc();
        "{year:04}-{month:02}-{day:02} {hour:02}:{minute:02}:{second:02}.{millis:03}"
    )
}

// The seconds, and the milliseconds of the one that runs.
fn since_1970(rt: &HostRuntime) -> Option<(u64, u32)>
    ensures { IfSome result (λ t. t.0 ≤ last_second) }
{
    let now = SystemTime::now(rt).ok()?;
    let since = now.duration_since(UNIX_EPOCH).ok()?;
    if since.as_secs() > LAST_SECOND {
        return None;
    }
    Some((since.as_secs(), since.subsec_millis()))
}
