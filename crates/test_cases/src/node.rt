// What may be at a path, and how a line states it.
use crate::book::Book;
use crate::word::{Word, program_arguments};
use std::alloc::{AllocError, Global};

#[derive(Drop)]
pub(crate) enum Node {
    File(Vec<u8>),
    Folder,
    Link,
    /// A file of any bytes.
    Any,
}

/// A path below `repo/` or `pg/`, with what is there.
#[derive(Drop)]
pub(crate) struct Placed {
    pub path: String,
    pub node: Node,
}

/// What the words name: a path with what is there, or the states of these names.
pub(crate) fn all_placed(
    alloc: Global,
    book: &Book,
    words: &[Word],
    known: &str,
) -> Result<Vec<Placed>, AllocError> {
    let mut all = Vec::new(alloc);
    match words.split_first() {
        Some((first, rest)) if first.bare().contains('/') => {
            all.push(Placed {
                path: String::from_str(alloc, first.bare())?,
                node: node_of(alloc, book, rest, known)?,
            })?;
        }
        _ => add_states(alloc, book, words, &mut all)?,
    }
    Ok(all)
}

fn add_states(
    alloc: Global,
    book: &Book,
    words: &[Word],
    all: &mut Vec<Placed>,
) -> Result<(), AllocError> {
    for word in words {
        add_state(alloc, book, word.bare(), all)?;
    }
    Ok(())
}

// A state that isn't there is one path, which no device holds.
fn add_state(
    alloc: Global,
    book: &Book,
    name: &str,
    all: &mut Vec<Placed>,
) -> Result<(), AllocError> {
    let Some(section) = book.section("state", name) else {
        all.push(Placed {
            path: String::from_str(alloc, name)?,
            node: Node::Link,
        })?;
        return Ok(());
    };
    for line in &section.lines {
        let words = program_arguments(alloc, &book.filled(&line.text)?)?;
        if let Some((path, rest)) = words.split_first() {
            all.push(Placed {
                path: String::from_str(alloc, path.bare())?,
                node: node_of(alloc, book, rest, &line.known)?,
            })?;
        }
    }
    Ok(())
}

fn node_of(alloc: Global, book: &Book, words: &[Word], known: &str) -> Result<Node, AllocError> {
    let first = match words.first() {
        Some(word) => word.bare(),
        None => "",
    };
    match first {
        "folder" => Ok(Node::Folder),
        "link" => Ok(Node::Link),
        "*" => Ok(Node::Any),
        _ => Ok(Node::File(bytes_of(alloc, book, words, known)?)),
    }
}

/// The bytes that words represent, and after them the text. `*N` has the last byte are N times, and `@NAME` is a
/// text.
pub(crate) fn bytes_of(
    alloc: Global,
    book: &Book,
    words: &[Word],
    known: &str,
) -> Result<Vec<u8>, AllocError> {
    let mut bytes = Vec::new(alloc);
    for word in words {
        add_piece(book, word, &mut bytes)?;
    }
    bytes.extend_from_slice(known.as_bytes())?;
    Ok(bytes)
}

fn add_piece(book: &Book, word: &Word, bytes: &mut Vec<u8>) -> Result<(), AllocError> {
    let bare = word.bare();
    if let Some(count) = bare.strip_prefix('*') {
        let last = bytes.last().copied().unwrap_or(0);
        let more = count.parse::<usize>().unwrap_or(1).saturating_sub(1);
        let length = bytes.len().saturating_add(more);
        return bytes.resize(length, last);
    }
    match bare.strip_prefix('@') {
        Some(name) => match book.section("text", name) {
            Some(section) => bytes.extend_from_slice(section.head.known.as_bytes()),
            None => bytes.extend_from_slice(b"no such text"),
        },
        None => bytes.extend_from_slice(&word.bytes),
    }
}
