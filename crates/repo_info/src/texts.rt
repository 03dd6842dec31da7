// From an info text to a value, whichever its kind.
ghost use Rattle.std.specs.Prelude.{◌<◌, ◌+◌, ◌^◌, ℕ, List, IfOk, IfErr, length, MatchResult};
ghost use Rattle.repo_ini.specs.Parts.{sections_of};
ghost use Rattle.repo_info.specs.Reading.{SectionsAre};

use crate::fault::MemberFault;
use base_text::NoMemory;
use repo_ini::{IniFault, Part, read_info_text};
use std::alloc::Global;

/// The sections of a text, or why it has none.
pub fn sections_in(alloc: Global, text: &[u8]) -> Result<Result<Vec<Part>, MemberFault>, NoMemory>
    requires { length text.now + 1 < 2 ^ 32 }
    ensures { IfOk result (SectionsAre text.now) }
{
    match read_info_text(alloc, text) {
        Ok(parts) => Ok(Ok(parts)),
        Err(IniFault::Syntax { line }) => Ok(Err(MemberFault::Syntax { line })),
        Err(IniFault::Sum { known, found }) => Ok(Err(MemberFault::Sum { known, found })),
        Err(IniFault::NoMemory) => Err(NoMemory),
    }
}
