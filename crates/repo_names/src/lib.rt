//! The names in a repository, as texts and as values: of files of the log, of backups, and of paths in a backup.
//!
//! - `wal`: names of write-ahead log, their order, and the header of a segment.
//! - `labels`: labels of backups, and the times in them.
//! - `paths`: which paths below a data folder a backup may hold.
#![tactic(auto)]

mod labels;
mod paths;
mod wal;

pub use labels::{date_of, label_kind, label_text, label_time, push_two, read_label};
pub use paths::{NameFault, check_name, check_name_within};
pub use wal::{
    ArchiveName, HeaderFault, Lsn, SegSize, Segment, archive_name_text, check_header, check_prefix,
    compare, is_span, next, read_archive_name, read_lsn, read_seg_size, read_segment,
    segment_folder, segment_text, segments_per_log,
};
