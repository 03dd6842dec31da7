// The parts of a case.
use crate::book::{Line, Section};
use std::alloc::{AllocError, Global};

/// The lines of a case without a loop are all `Setup`.
#[derive(Clone, Copy, PartialEq, Eq)]
pub(crate) enum Part {
    Setup,
    /// `each ..`, which begins a loop.
    Each,
    /// The command that is tried in a loop.
    Run,
    /// What is done where a call failed.
    Body,
    /// `left ..` and what is done on all that a crash may leave.
    Left,
    /// What is done where no call failed.
    Well,
    /// What is required of the whole loop.
    Ends,
}

fn part_of(before: Part, verb: &str) -> Part {
    match verb {
        "each" => Part::Each,
        "left" => Part::Left,
        "well" => Part::Well,
        "noted" | "sum" | "calls" => Part::Ends,
        _ => match before {
            Part::Each => Part::Run,
            Part::Run => Part::Body,
            other => other,
        },
    }
}

/// The lines of that part.
pub(crate) fn lines_of<'a>(
    alloc: Global,
    case: &'a Section,
    wanted: Part,
) -> Result<Vec<&'a Line>, AllocError> {
    let mut part = Part::Setup;
    let mut lines = Vec::new(alloc);
    for line in &case.lines {
        part = part_of(part, line.verb());
        if part == wanted {
            lines.push(line)?;
        }
    }
    Ok(lines)
}
