//! From an info text to its sections.

ghost use Rattle.std.specs.Prelude.{◌≡◌, ◌<◌, ◌^◌, ◌+◌, List, length, IfOk, IfErr, Ok};
ghost use Rattle.base_model.specs.InfoText.{Section, IsInfo, info_text};
ghost use Rattle.repo_ini.specs.Parts.{sections_of};
ghost use Rattle.repo_ini.specs.Form.{pieces};
ghost use Rattle.repo_ini.specs.Answers.{Gives, GivesSections, WhereSumDiffers, IsFaultOf};
ghost use Rattle.repo_ini.specs.Reading.{start, run, ended, read_text};
ghost use Rattle.repo_ini.specs.States.{state_of, EndsWhole};

use crate::cuts::next_piece;
use crate::fault::IniFault;
use crate::part::Part;
use crate::state::State;
use crate::step::step;
use crate::write::signed;
use base_text::Sum;
use std::alloc::Global;

// The state after the last line, and how many lines there are.
fn run_pieces(alloc: Global, bytes: &[u8]) -> Result<(State, u32), IniFault>
    requires { length bytes.now + 1 < 2 ^ 32 }
    ensures state { Gives (λ p. state_of p.0) result (run start 1 (pieces bytes.now)) }
    ensures lines { IfOk result (λ p. p.1 ≡ length (pieces bytes.now)) }
{
    let mut state = State::Start;
    let mut line: u32 = 0;
    let mut rest = Some(bytes);
    while let Some(left) = rest {
        let (piece, after) = next_piece(left);
        line += 1;
        match step(alloc, state, piece)? {
            Some(next) => state = next,
            None => return Err(IniFault::Syntax { line }),
        }
        rest = after;
    }
    Ok((state, line))
}

// The sections, where the text has ended and its sum is right.
fn end(alloc: Global, lines: u32, state: State) -> Result<Vec<Part>, IniFault>
    requires { EndsWhole state }
    ensures { Gives (λ v. sections_of v.items) result (ended lines (state_of state)) }
{
    match state {
        State::Over(parts, known) => {
            let found = Sum::of(&signed(alloc, &parts)?);
            if known.0.as_slice() == found.0.as_slice() {
                Ok(parts)
            } else {
                Err(IniFault::Sum { known, found })
            }
        }
        State::Start => Err(IniFault::Syntax { line: lines }),
        State::Format => Err(IniFault::Syntax { line: lines }),
        State::Gap => Err(IniFault::Syntax { line: lines }),
        State::Between(_) => Err(IniFault::Syntax { line: lines }),
        State::Within(_, _) => Err(IniFault::Syntax { line: lines }),
        State::Check(_) => Err(IniFault::Syntax { line: lines }),
        State::Closing(_, _) => Err(IniFault::Syntax { line: lines }),
    }
}

fn read_all(alloc: Global, bytes: &[u8]) -> Result<Vec<Part>, IniFault>
    requires { length bytes.now + 1 < 2 ^ 32 }
    ensures { Gives (λ v. sections_of v.items) result (read_text bytes.now) }
{
    let (state, lines) = run_pieces(alloc, bytes)?;
    end(alloc, lines, state)
}

/// The sections of an info text.
///
/// The line of a fault is counted from 1, over the pieces that newlines separate.
pub fn read_info_text(alloc: Global, bytes: &[u8]) -> Result<Vec<Part>, IniFault>
    requires { length bytes.now + 1 < 2 ^ 32 }
    // What is read is the one text of its sections.
    ensures found { IfOk result (λ v. IsInfo (sections_of v.items)
        × (bytes.now ≡ info_text (sections_of v.items))) }
    // The text of some sections is read as them, unless memory runs out.
    ensures only { (ss : List Section) → IsInfo ss → bytes.now ≡ info_text ss → GivesSections result (Ok ss) }
    // The text of some sections with a sum that isn't theirs is refused for that sum.
    ensures wrong { WhereSumDiffers bytes.now (GivesSections result) }
    // The first line that no text continues with, or a wrong sum.
    ensures fault { IfErr result (IsFaultOf bytes.now) }
{
    read_all(alloc, bytes)
}
