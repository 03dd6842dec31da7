// Names of write-ahead log (PostgreSQL manual, "WAL Internals" and "Continuous Archiving").

/// A segment's name in its three fields; at one segment size a log has 2^32 divided by that size of them.
#[derive(Clone, Copy, Debug, PartialEq, Eq)]
pub struct Segment {
    pub timeline: u32,
    pub log: u32,
    pub seg: u32,
}

/// The size of a segment in bytes: a power of two from 1 MiB to 1 GiB.
#[derive(Clone, Copy, Debug, PartialEq, Eq)]
pub struct SegSize(pub u32);

/// The segments from `start` to `stop`, both included.
#[derive(Clone, Copy, Debug, PartialEq, Eq)]
pub struct Span {
    pub start: Segment,
    pub stop: Segment,
}

/// A position in the log, in bytes.
#[derive(Clone, Copy, Debug, PartialEq, Eq)]
pub struct Lsn(pub u64);

/// A file that a server hands to its archive command.
#[derive(Clone, Copy, Debug, PartialEq, Eq)]
pub enum ArchiveName {
    Segment(Segment),
    /// the last, unfinished segment of a timeline
    Partial(Segment),
    /// the history of a timeline
    History(u32),
    /// the history of a base backup: the segment in which it began, and the byte at which it did
    Backup(Segment, u32),
}

/// The folder of a cluster's files in the archive.
#[derive(Clone, Copy, Debug, PartialEq, Eq)]
pub struct ArchiveId {
    pub version: u32,
    pub number: u32,
}

/// What an online backup has of the log.
#[derive(Clone, Copy, Debug, PartialEq, Eq)]
pub struct WalPart {
    pub span: Span,
    pub from: Lsn,
    pub to: Lsn,
    pub size: SegSize,
}
