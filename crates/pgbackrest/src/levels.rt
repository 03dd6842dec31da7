// The lines of a command, by how much of them a person wants to see, each error with what explains it.
use crate::hints::hint_for;
use options_read::LogWord;
use std::alloc::{AllocError, Global};

/// What kind of line it is.
#[derive(Clone, Copy, PartialEq, Eq)]
pub enum Level {
    Info,
    Warn,
    Error,
}

impl Level {
    /// The word in front of such a line.
    pub fn word(self) -> &'static str {
        match self {
            Level::Info => "INFO",
            Level::Warn => "WARN",
            Level::Error => "ERROR",
        }
    }

    /// Whether a log of this kind has the line.
    pub fn is_in(self, log: LogWord) -> bool {
        match log {
            LogWord::Nothing => false,
            LogWord::Failures => self == Level::Error,
            LogWord::Warnings => self != Level::Info,
            LogWord::Progress => true,
        }
    }
}

/// A line's kind, and its text after the word. A line of a report has no word.
pub fn level_of(line: &str) -> (Level, &str) {
    for level in [Level::Error, Level::Warn, Level::Info] {
        if let Some(rest) = line.strip_prefix(level.word()) {
            if let Some(text) = rest.strip_prefix(": ") {
                return (level, text);
            }
        }
    }
    (Level::Info, line)
}

/// A line for a person.
#[derive(Drop)]
pub struct Line {
    pub level: Level,
    pub text: String,
    /// Whether it explains an error, and is in no output.
    pub explains: bool,
}

/// The lines of an output. After an error come the reasons, and what to do. Without an error's line the reasons are
/// alone.
pub fn lines_of(
    alloc: Global,
    (first, last): (&[u8], &[u8]),
    reasons: &[String],
) -> Result<Vec<Line>, AllocError> {
    let mut lines = Vec::new(alloc);
    add_lines(alloc, &mut lines, first, reasons)?;
    add_lines(alloc, &mut lines, last, reasons)?;
    if !lines.iter().any(|line| line.level == Level::Error) {
        explain(&mut lines, reasons)?;
    }
    Ok(lines)
}

fn add_lines(
    alloc: Global,
    lines: &mut Vec<Line>,
    output: &[u8],
    reasons: &[String],
) -> Result<(), AllocError> {
    for text in String::from_utf8_lossy(alloc, output)?.lines() {
        let (level, _) = level_of(text);
        lines.push(Line {
            level,
            text: String::from_str(alloc, text)?,
            explains: false,
        })?;
        if level == Level::Error {
            explain(lines, reasons)?;
            advise(alloc, lines, text)?;
        }
    }
    Ok(())
}

fn explain(lines: &mut Vec<Line>, reasons: &[String]) -> Result<(), AllocError> {
    for reason in reasons {
        lines.push(Line {
            level: Level::Error,
            text: reason.clone()?,
            explains: true,
        })?;
    }
    Ok(())
}

fn advise(alloc: Global, lines: &mut Vec<Line>, error: &str) -> Result<(), AllocError> {
    if let Some(hint) = hint_for(error) {
        lines.push(Line {
            level: Level::Error,
            text: format!(in alloc; "HINT: {hint}")?,
            explains: true,
        })?;
    }
    Ok(())
}
