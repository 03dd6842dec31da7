// The paths of the command line, as a process finds them that has another working folder: the server, whose
// `restore_command` a restore writes, and what runs in the background.
use crate::command_line::{Reader, Word};
use std::io::ErrorKind;
use std::{env, io};

const PATHS: [&str; 6] = [
    "config",
    "pg1-path",
    "repo1-path",
    "lock-path",
    "spool-path",
    "log-path",
];

/// The arguments, with each relative path of an option after the working folder. They stay unchanged where that has no
/// name.
pub fn absolute(rt: &HostRuntime, arguments: Vec<String>) -> io::Result<Vec<String>> {
    let folder = match env::current_dir(rt) {
        Ok(folder) => folder,
        Err(e) if e.kind() == ErrorKind::OutOfMemory => return Err(e),
        Err(_) => return Ok(arguments),
    };
    let folder = folder.as_path().as_str();
    let mut reader = Reader::new();
    let mut found = Vec::new(rt.alloc());
    for word in &arguments {
        let word = word.as_str();
        let text = match reader.read(word) {
            Word::Given(name, value) if is_relative(name, value) => {
                format!(in rt.alloc(); "--{name}={folder}/{value}")?
            }
            Word::Value(name, value) if is_relative(name, value) => {
                format!(in rt.alloc(); "{folder}/{value}")?
            }
            _ => String::from_str(rt.alloc(), word)?,
        };
        found.push(text).map_err(|_| ErrorKind::OutOfMemory)?;
    }
    Ok(found)
}

fn is_relative(name: &str, value: &str) -> bool {
    PATHS.contains(&name) && !value.is_empty() && !value.starts_with('/')
}
