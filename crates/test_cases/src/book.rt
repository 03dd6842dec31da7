// What the files say besides their cases.
use std::alloc::{AllocError, Global};
use std::collections::BTreeMap;

/// A line, and the text below it whose lines begin with a bar.
#[derive(Drop)]
pub(crate) struct Line {
    pub text: String,
    pub known: String,
}

impl Line {
    /// The first word.
    pub(crate) fn verb(&self) -> &str {
        cut_word(&self.text).0
    }

    /// What comes after it.
    pub(crate) fn rest(&self) -> &str {
        cut_word(&self.text).1
    }

    // Adds a line to the text.
    fn add(&mut self, known: &str) -> Result<(), AllocError> {
        self.known.push_str(known)?;
        self.known.push('\n')
    }
}

/// The first word of a text, and what comes after the blank after it.
fn cut_word(text: &str) -> (&str, &str) {
    match text.split_once(' ') {
        Some(parts) => parts,
        None => (text, ""),
    }
}

/// A line that isn't indented, with the indented ones that follow it.
#[derive(Drop)]
pub(crate) struct Section {
    pub head: Line,
    pub lines: Vec<Line>,
}

impl Section {
    pub(crate) fn verb(&self) -> &str {
        self.head.verb()
    }

    pub(crate) fn name(&self) -> &str {
        self.head.rest()
    }
}

/// The sections of a file. Empty lines and those that begin with `#` don't count.
pub(crate) fn sections_of(alloc: Global, text: &str) -> Result<Vec<Section>, AllocError> {
    let mut sections = Vec::new(alloc);
    for raw in text.lines() {
        let line = raw.trim();
        if line.is_empty() || line.starts_with('#') {
            continue;
        }
        if let Some(known) = line.strip_prefix('|') {
            add_known(&mut sections, known.strip_prefix(' ').unwrap_or(known))?;
        } else {
            let line = Line {
                text: String::from_str(alloc, line)?,
                known: String::new(alloc),
            };
            add_line(alloc, &mut sections, raw.starts_with(' '), line)?;
        }
    }
    Ok(sections)
}

fn add_line(
    alloc: Global,
    sections: &mut Vec<Section>,
    indented: bool,
    line: Line,
) -> Result<(), AllocError> {
    match sections.last_mut() {
        Some(section) if indented => section.lines.push(line)?,
        _ => sections.push(Section {
            head: line,
            lines: Vec::new(alloc),
        })?,
    }
    Ok(())
}

fn add_known(sections: &mut Vec<Section>, known: &str) -> Result<(), AllocError> {
    match sections.last_mut() {
        Some(section) => match section.lines.last_mut() {
            Some(line) => line.add(known),
            None => section.head.add(known),
        },
        None => Ok(()),
    }
}

/// What the files said so far: short names of texts, states and long texts, and the lines that begin and end each case
/// of a file.
#[derive(Drop)]
pub(crate) struct Book {
    alloc: Global,
    lets: BTreeMap<String, String>,
    sections: Vec<Section>,
    pub before: Vec<Line>,
    pub after: Vec<Line>,
}

impl Book {
    pub(crate) fn new(alloc: Global) -> Self {
        Book {
            alloc,
            lets: BTreeMap::new(alloc),
            sections: Vec::new(alloc),
            before: Vec::new(alloc),
            after: Vec::new(alloc),
        }
    }

    /// Nothing begins or ends the cases of a new file.
    pub(crate) fn start_file(&mut self) {
        self.before = Vec::new(self.alloc);
        self.after = Vec::new(self.alloc);
    }

    pub(crate) fn add(&mut self, section: Section) -> Result<(), AllocError> {
        match section.verb() {
            "let" => {
                let (name, text) = cut_word(section.name());
                let text = self.filled(text)?;
                self.name(name, text)
            }
            "before" => {
                self.before = section.lines;
                Ok(())
            }
            "after" => {
                self.after = section.lines;
                Ok(())
            }
            _ => Ok(self.sections.push(section)?),
        }
    }

    /// Gives a text a short name.
    pub(crate) fn name(&mut self, name: &str, text: String) -> Result<(), AllocError> {
        let name = String::from_str(self.alloc, name)?;
        self.lets.insert(name, text)?;
        Ok(())
    }

    /// The section of that kind and name.
    pub(crate) fn section(&self, kind: &str, name: &str) -> Option<&Section> {
        self.sections
            .iter()
            .find(|section| section.verb() == kind && section.name() == name)
    }

    /// The text with each `$NAME` as what the name represents.
    pub(crate) fn filled(&self, text: &str) -> Result<String, AllocError> {
        let mut filled = String::new(self.alloc);
        let mut first = true;
        for part in text.split('$') {
            if first {
                filled.push_str(part)?;
            } else {
                self.push_named(&mut filled, part)?;
            }
            first = false;
        }
        Ok(filled)
    }

    // A name, which a blank or the end ends, and what comes after it.
    fn push_named(&self, filled: &mut String, part: &str) -> Result<(), AllocError> {
        let name = cut_word(part).0;
        match self.lets.get(name) {
            Some(text) => filled.push_str(text)?,
            None => filled.push_str("$?")?,
        }
        match part.strip_prefix(name) {
            Some(rest) => filled.push_str(rest),
            None => Ok(()),
        }
    }
}
