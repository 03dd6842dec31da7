// What a server says about a backup.
use repo_names::{Lsn, Segment};

/// Where a backup starts: the position, and the segment that holds it.
#[derive(Clone, Copy, Debug, PartialEq, Eq)]
pub struct Started {
    pub lsn: Lsn,
    pub segment: Segment,
}

/// Where a backup stops, and the contents of its `backup_label` and `tablespace_map`, the second empty where there is
/// none.
#[derive(Debug, PartialEq, Eq, Drop)]
pub struct Stopped {
    pub lsn: Lsn,
    pub segment: Segment,
    pub label_file: String,
    pub map_file: String,
}
