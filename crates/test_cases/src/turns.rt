// The turns of a loop over the calls of a device: in each of them another one fails, until none does.
use crate::book::{Book, Section};
use crate::case::{Part, lines_of};
use crate::case_loop::{Trial, begin, play_part, trial_of};
use crate::images::play_images;
use crate::steps::arguments_in;
use crate::tally::Tally;
use crate::word::Word;
use crate::world::World;
use std::alloc::{AllocError, Global};

// More turns than any loop has.
const TURNS: u64 = 400;

/// What is wrong in the case. `each` are the words of the line that begins its loop.
pub(crate) fn play_calls(
    alloc: Global,
    book: &mut Book,
    case: &Section,
    each: &[Word],
) -> Result<String, AllocError> {
    let mut tally = Tally {
        noted: Vec::new(alloc),
    };
    for turn in 0..TURNS {
        book.name("N", format!(in alloc; "{turn}")?)?;
        let done = play_turn(alloc, book, case, each, turn)?;
        if !done.wrong.is_empty() {
            return format!(in alloc; "in turn {turn}: {}", done.wrong);
        }
        if done.went {
            return end(alloc, book, case, &tally);
        }
        tally.noted.push(done.noted)?;
    }
    String::from_str(alloc, "turns without end")
}

// Whether no call failed in a turn, what was noted in it, and what was wrong.
#[derive(Drop)]
struct Done {
    went: bool,
    noted: u64,
    wrong: String,
}

fn play_turn(
    alloc: Global,
    book: &Book,
    case: &Section,
    each: &[Word],
    turn: u64,
) -> Result<Done, AllocError> {
    let mut world = World::new(alloc);
    turn_in(book, &mut world, case, each, turn)
}

fn turn_in(
    book: &Book,
    world: &mut World,
    case: &Section,
    each: &[Word],
    turn: u64,
) -> Result<Done, AllocError> {
    let trial = trial_of(world.alloc, book, case)?;
    begin(book, world, case)?;
    let went = try_turn(world, each, turn, &trial.words)?;
    play_rest(book, world, case, &trial, went)?;
    Ok(Done {
        went,
        noted: world.noted,
        wrong: world.take_wrong(),
    })
}

// Has the device fail, and runs the command. Whether no call failed.
fn try_turn(
    world: &mut World,
    each: &[Word],
    turn: u64,
    words: &[Word],
) -> Result<bool, AllocError> {
    let (kind, device) = match each {
        [_, kind, device, ..] => (kind.bare(), device.bare()),
        _ => ("", ""),
    };
    let whole = arm(world, kind, device, turn)?;
    world.start(words)?;
    Ok(whole || kind != "cut" && faults(world, device) == 0)
}

// What is done after the command.
fn play_rest(
    book: &Book,
    world: &mut World,
    case: &Section,
    trial: &Trial,
    went: bool,
) -> Result<(), AllocError> {
    if went {
        play_part(book, world, case, Part::Well)?;
    } else {
        world.verify(&trial.words, &trial.known)?;
        play_part(book, world, case, Part::Body)?;
        play_left(world.alloc, book, world, case)?;
    }
    world.check()
}

// Has the device fail in this turn. Whether it is known that it won't, as the server then gives all its bytes.
fn arm(world: &mut World, kind: &str, device: &str, turn: u64) -> Result<bool, AllocError> {
    match kind {
        "cut" => {
            let whole = turn >= world.around.server.len() as u64;
            world.around.server.truncate(turn as usize);
            return Ok(whole);
        }
        "width" => world.around.width = Some(turn as usize),
        "pair" => {
            world.fail_at(device, turn)?;
            world.fail_at(device, turn.saturating_add(1))?;
        }
        _ => world.fail_at(device, turn)?,
    }
    Ok(false)
}

// What is done on all that a crash may leave then, and on what the command left.
fn play_left(
    alloc: Global,
    book: &Book,
    world: &mut World,
    case: &Section,
) -> Result<(), AllocError> {
    let wrong = match &world.repo {
        Some(repo) => play_images(alloc, book, case, repo, repo.moment())?,
        None => String::new(alloc),
    };
    world.tell(&wrong)?;
    play_part(book, world, case, Part::Left)
}

// How often the device failed. A connection doesn't report that, but its fault alone has status 83.
fn faults(world: &World, device: &str) -> u64 {
    if let ("spool", Some(spool)) = (device, &world.spool) {
        return spool.faults();
    }
    match (device, &world.repo, &world.pg, &world.ran) {
        ("repo", Some(repo), _, _) => repo.faults(),
        ("pg", _, Some(pg), _) => pg.faults(),
        ("server", _, _, Some(ran)) => u64::from(ran.status == 83),
        ("locks", _, _, Some(ran)) => ran.locks.faults(),
        ("config", _, _, Some(ran)) => ran.config.faults(),
        ("out", _, _, Some(ran)) => ran.out.faults,
        _ => 0,
    }
}

// What is wrong with the numbers that were noted in the turns.
fn end(alloc: Global, book: &Book, case: &Section, tally: &Tally) -> Result<String, AllocError> {
    let mut wrong = String::new(alloc);
    for line in lines_of(alloc, case, Part::Ends)? {
        let words = arguments_in(book, alloc, line)?;
        if !tally.fits(alloc, line.verb(), words.get(1..).unwrap_or(&[]))? {
            write!(wrong, "{} is wrong in {:?}", line.verb(), tally.noted)?;
        }
    }
    Ok(wrong)
}
