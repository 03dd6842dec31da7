//! What has been read of an info text.

use crate::part::Part;
use base_text::Sum;

/// The sections that are done, named for what the next line is to be.
#[derive(Drop)]
pub(crate) enum State {
    /// `[backrest]`
    Start,
    /// `backrest-format=5`
    Format,
    /// the empty line after the head
    Gap,
    /// a section's name, or `[backrest]`
    Between(Vec<Part>),
    /// a key of the section, or the empty line after it
    Within(Vec<Part>, Part),
    /// the checksum
    Check(Vec<Part>),
    /// the empty piece after the last newline
    Closing(Vec<Part>, Sum),
    /// none
    Over(Vec<Part>, Sum),
}
