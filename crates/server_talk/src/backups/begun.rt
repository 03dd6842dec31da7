// An online backup as its talk continues.
use crate::session::Session;
use base_model::WalPart;
use repo_names::{Lsn, SegSize, Segment};

/// A backup that the server has started. It continues as long as the session does.
#[derive(Drop)]
pub struct Begun {
    pub session: Session,
    /// The size of the server's segments.
    pub size: SegSize,
    /// Where it starts, and the segment that holds this position.
    pub from: Lsn,
    pub segment: Segment,
}

/// A backup that the server has stopped.
#[derive(Debug, Drop)]
pub struct Finished {
    /// The part of the log that a restore of it needs.
    pub wal: WalPart,
    /// What its `backup_label` is to hold.
    pub label_file: String,
}
