// A case, once or in the turns of its loop.
use crate::book::{Book, Line, Section};
use crate::case::{Part, lines_of};
use crate::images::play_stops;
use crate::steps::{arguments_in, step};
use crate::turns::play_calls;
use crate::word::{Word, program_arguments};
use crate::world::World;
use std::alloc::{AllocError, Global};

/// What is wrong in the case; nothing where it is valid.
pub(crate) fn play(alloc: Global, book: &mut Book, case: &Section) -> Result<String, AllocError> {
    let each = lines_of(alloc, case, Part::Each)?;
    let Some(line) = each.first() else {
        return play_once(alloc, book, case);
    };
    let words = arguments_in(book, alloc, line)?;
    let kind = match words.get(1) {
        Some(word) => word.bare(),
        None => "",
    };
    match kind {
        "stop" => play_stops(alloc, book, case, false),
        "quarter" => play_stops(alloc, book, case, true),
        _ => play_calls(alloc, book, case, &words),
    }
}

fn play_lines(book: &Book, world: &mut World, lines: &[Line]) -> Result<(), AllocError> {
    for line in lines {
        step(book, world, line)?;
    }
    Ok(())
}

/// Does what the lines of that part say.
pub(crate) fn play_part(
    book: &Book,
    world: &mut World,
    case: &Section,
    part: Part,
) -> Result<(), AllocError> {
    for line in lines_of(world.alloc, case, part)? {
        step(book, world, line)?;
    }
    Ok(())
}

/// Has the new world as the case begins.
pub(crate) fn begin(book: &Book, world: &mut World, case: &Section) -> Result<(), AllocError> {
    play_lines(book, world, &book.before)?;
    play_part(book, world, case, Part::Setup)
}

fn play_once(alloc: Global, book: &Book, case: &Section) -> Result<String, AllocError> {
    let mut world = World::new(alloc);
    once_in(book, &mut world, case)
}

// (A world is played in by a function that borrows it, since each way out of the one that owns it drops all of it.)
fn once_in(book: &Book, world: &mut World, case: &Section) -> Result<String, AllocError> {
    begin(book, world, case)?;
    play_lines(book, world, &book.after)?;
    world.check()?;
    Ok(world.take_wrong())
}

/// The command that is tried in a loop: its status and arguments, and what it writes.
#[derive(Drop)]
pub(crate) struct Trial {
    pub words: Vec<Word>,
    pub known: String,
}

/// The command that the case tries in its loop.
pub(crate) fn trial_of(alloc: Global, book: &Book, case: &Section) -> Result<Trial, AllocError> {
    match lines_of(alloc, case, Part::Run)?.first() {
        Some(line) => Ok(Trial {
            words: program_arguments(alloc, &book.filled(line.rest())?)?,
            known: book.filled(&line.known)?,
        }),
        None => Ok(Trial {
            words: Vec::new(alloc),
            known: String::new(alloc),
        }),
    }
}
