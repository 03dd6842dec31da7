//! Names of write-ahead log, their order, and the header of a segment.
//!
//! What is proved, by the contract of the function that is named:
//!
//! - `read_segment`, `read_archive_name`, `read_seg_size`: the value of a name or a number, and of no other.
//!   `segment_text`, `segment_folder`, `archive_name_text`: the name of a value.
//! - `next`: the segment that follows this one and no other; none after the last. `compare`: the byte order of two
//!   names. `read_lsn`: a position by its text in either case.
//! - `check_header`: what a segment's first page states, and each refusal. `check_prefix`: the same for all files that
//!   begin with these bytes and have that many.

mod archive_names;
mod fields;
mod header;
mod order;
mod positions;
mod segments;
mod sizes;
mod spans;

pub use archive_names::{archive_name_text, read_archive_name};
pub use base_model::{ArchiveName, Lsn, SegSize, Segment};
pub use header::{HeaderFault, check_header, check_prefix};
pub use order::{compare, next};
pub use positions::read_lsn;
pub use segments::{read_segment, segment_folder, segment_text};
pub use sizes::{read_seg_size, segments_per_log};
pub use spans::is_span;
