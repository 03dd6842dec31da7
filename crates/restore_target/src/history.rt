// The history of a timeline (PostgreSQL manual, "Timelines").
ghost use Rattle.std.specs.Prelude.{◌≡◌, ◌<◌, ◌+◌, ◌^◌, ℕ, length, IfSome, IfNone, IfOk, IfErr};
ghost use Rattle.repo_ini.specs.Form.{pieces};
ghost use Rattle.restore_target.specs.declared.history.Ancestor.{Ancestor as SpecAncestor};
ghost use Rattle.restore_target.specs.declared.history.HistoryFault.TheVariants.{NoMemory as OutOfMemory};
ghost use Rattle.restore_target.specs.History.{is_passed, TellsEnd, IsNext, AreAncestors, HistoryCause};

use base_model::Lsn;
use base_text::read_decimal;
use repo_ini::{cut_at, next_piece};
use repo_names::read_lsn;
use std::alloc::{AllocError, AllocFailed, Global};
use thiserror::Error;

/// A timeline that another one goes back to, and the position at which that one left it.
#[derive(Clone, Copy, Debug, PartialEq, Eq)]
pub struct Ancestor {
    pub timeline: u32,
    pub until: Lsn,
}

/// Why a history file states no ancestors.
#[derive(Clone, Copy, Debug, PartialEq, Eq, Error)]
pub enum HistoryFault {
    /// The first line that isn't valid, counted from 1.
    #[error("line {line} is not valid")]
    Form { line: u32 },
    #[error("out of memory")]
    NoMemory,
}

impl From<AllocError> for HistoryFault {
    ghost from_gives = { λ _ e. e ≡ OutOfMemory };

    fn from(_e: AllocError) -> HistoryFault {
        HistoryFault::NoMemory
    }
}

impl<T: Drop> From<AllocFailed<T>> for HistoryFault {
    ghost from_gives = { λ _ e. e ≡ OutOfMemory };

    fn from(_e: AllocFailed<T>) -> HistoryFault {
        HistoryFault::NoMemory
    }
}

// Whether a line states nothing: an empty one, or a comment.
fn is_passed(line: &[u8]) -> bool
    ensures { result ≡ is_passed line.now }
{
    match line {
        [] => true,
        [first, ..] => *first == b'#',
    }
}

// Which timeline was left where, by the line.
fn read_end(line: &[u8]) -> Option<(u64, Lsn)>
    ensures value { IfSome result (λ e. TellsEnd line.now e.0 e.1.0) }
    ensures none { IfNone result ((t at : ℕ) → t < 2 ^ 64 → ¬ TellsEnd line.now t at) }
{
    let (number, more) = cut_at(b'\t', line)?;
    let timeline = read_decimal(number)?;
    let (place, _) = cut_at(b'\t', more)?;
    let until = read_lsn(place)?;
    Some((timeline, until))
}

// The ancestor that a line states, where it may come next.
fn next_ancestor(own: u32, least: u32, line: &[u8]) -> Option<Ancestor>
    ensures value { IfSome result (IsNext own least line.now) }
    ensures none { IfNone result ((a : SpecAncestor) → ¬ IsNext own least line.now a) }
{
    let (timeline, until) = read_end(line)?;
    if timeline < u64::from(least) || timeline >= u64::from(own) {
        return None;
    }
    Some(Ancestor {
        timeline: timeline as u32,
        until,
    })
}

/// The ancestors of a timeline by the bytes of its history file, in the order of the file.
pub fn read_history(
    alloc: Global,
    timeline: u32,
    bytes: &[u8],
) -> Result<Vec<Ancestor>, HistoryFault>
    requires { length bytes.now + 1 < 2 ^ 32 }
    ensures ancestors { IfOk result (λ v. AreAncestors timeline 0 (pieces bytes.now) v.items) }
    ensures cause { IfErr result (HistoryCause timeline (pieces bytes.now)) }
{
    let mut found = Vec::new(alloc);
    let mut least: u32 = 0;
    let mut number: u32 = 0;
    let mut rest = Some(bytes);
    while let Some(left) = rest {
        let (line, after) = next_piece(left);
        number += 1;
        if !is_passed(line) {
            let Some(ancestor) = next_ancestor(timeline, least, line) else {
                return Err(HistoryFault::Form { line: number });
            };
            least = ancestor.timeline + 1;
            found.push(ancestor)?;
        }
        rest = after;
    }
    Ok(found)
}
