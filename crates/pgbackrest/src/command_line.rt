// What each argument of a command line is: an option, the value of one, or neither.
use options_table::{OptionKind, Row, TABLE, row_for};

/// An argument, as the commands read it.
#[derive(Clone, Copy)]
pub enum Word<'a> {
    /// `--name=value`.
    Given(&'static str, &'a str),
    /// The value of the option before it.
    Value(&'static str, &'a str),
    /// Another argument that begins with `-`.
    Dashed(&'a str),
    /// A command or a parameter.
    Plain(&'a str),
}

/// Reads arguments from left to right.
#[derive(Drop)]
pub struct Reader {
    // the option whose value the next argument is
    waits: Option<&'static str>,
}

impl Reader {
    pub fn new() -> Self {
        Reader { waits: None }
    }

    /// What the next argument is.
    pub fn read<'a>(&mut self, word: &'a str) -> Word<'a> {
        if let Some(name) = self.waits.take() {
            return Word::Value(name, word);
        }
        if !word.starts_with('-') {
            return Word::Plain(word);
        }
        let Some(body) = word.strip_prefix("--") else {
            return Word::Dashed(word);
        };
        if let Some((name, value)) = body.split_once('=') {
            return match row_of(name) {
                Some(row) => Word::Given(row.name, value),
                None => Word::Dashed(word),
            };
        }
        if let Some(row) = row_of(body) {
            if !matches!(row.kind, OptionKind::Flag) {
                self.waits = Some(row.name);
            }
        }
        Word::Dashed(word)
    }
}

fn row_of(name: &str) -> Option<Row> {
    for option in TABLE {
        let row = row_for(option);
        if row.name == name {
            return Some(row);
        }
    }
    None
}

/// The value that the arguments give an option.
pub fn value_given<'a>(arguments: &'a [String], name: &str) -> Option<&'a str> {
    let mut reader = Reader::new();
    for word in arguments {
        match reader.read(word.as_str()) {
            Word::Given(found, value) | Word::Value(found, value) if found == name => {
                return Some(value);
            }
            _ => {}
        }
    }
    None
}
