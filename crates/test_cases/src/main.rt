//! The cases of the program: data files that say what the devices in memory hold, which arguments the program is given,
//! and what it is to answer and to leave. Each case is one line of the output: `ok NAME`, or `wrong NAME: ..`.
//! `data/README` has the form.
#![tactic(auto)]

mod book;
mod case;
mod case_loop;
mod check;
mod devices;
mod images;
mod looks;
mod node;
mod output;
mod steps;
mod tally;
mod turns;
mod word;
mod world;

use book::{Book, Section, sections_of};
use case_loop::play;
use std::process::ExitCode;
use std::{env, fs, io};

/// How many cases there were, and how many of them were wrong.
#[derive(Clone, Copy)]
struct Counts {
    cases: u64,
    wrong: u64,
}

fn main(rt: HostRuntime) -> ExitCode {
    match play_files(&rt) {
        Ok(counts) if counts.wrong == 0 => ExitCode::SUCCESS,
        Ok(_) | Err(_) => ExitCode::from(1),
    }
}

// Plays the cases of the files that the arguments name, in their order.
fn play_files(rt: &HostRuntime) -> io::Result<Counts> {
    let mut book = Book::new(rt.alloc());
    let mut counts = Counts { cases: 0, wrong: 0 };
    play_named(rt, &mut book, &mut counts)?;
    println!(rt; "{} cases, {} wrong", counts.cases, counts.wrong)?;
    Ok(counts)
}

fn play_named(rt: &HostRuntime, book: &mut Book, counts: &mut Counts) -> io::Result<()> {
    for name in env::args(rt)?.skip(1) {
        let text = fs::read_to_string(rt, name.as_str())?;
        play_file(rt, book, &text, counts)?;
    }
    Ok(())
}

fn play_file(rt: &HostRuntime, book: &mut Book, text: &str, counts: &mut Counts) -> io::Result<()> {
    book.start_file();
    for section in sections_of(rt.alloc(), text)? {
        play_section(rt, book, section, counts)?;
    }
    Ok(())
}

fn play_section(
    rt: &HostRuntime,
    book: &mut Book,
    section: Section,
    counts: &mut Counts,
) -> io::Result<()> {
    if section.verb() == "case" {
        return play_case(rt, book, &section, counts);
    }
    Ok(book.add(section)?)
}

fn play_case(
    rt: &HostRuntime,
    book: &mut Book,
    section: &Section,
    counts: &mut Counts,
) -> io::Result<()> {
    let wrong = play(rt.alloc(), book, section)?;
    counts.cases = counts.cases.saturating_add(1);
    if wrong.is_empty() {
        println!(rt; "ok {}", section.name())
    } else {
        counts.wrong = counts.wrong.saturating_add(1);
        println!(rt; "wrong {}: {}", section.name(), wrong)
    }
}
