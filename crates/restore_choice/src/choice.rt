// What is asked for.

use base_model::{Label, Lsn};

/// By when a backup has to have ended.
#[derive(Clone, Copy, Debug, PartialEq, Eq)]
pub enum Deadline {
    /// Before this second, counted since 1970 in UTC.
    Moment(u64),
    /// At this position of the log, or before.
    Position(Lsn),
}

/// Which backups a recovery can begin with.
#[derive(Clone, Copy, Debug, PartialEq, Eq)]
pub struct Bounds {
    pub deadline: Option<Deadline>,
    /// The timeline along which the server recovers, where its number is asked for.
    pub timeline: Option<u32>,
}

/// Which backup is restored.
#[derive(Clone, Copy, Debug)]
pub enum Choice {
    /// The one of this label.
    Labelled(Label),
    /// The last one that qualifies.
    Last(Bounds),
}
