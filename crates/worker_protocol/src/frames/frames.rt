// What frames state.
use base_text::Sum;

/// Below which of the two folders a file lies: the data folder, or the repository.
#[derive(Clone, Copy, Debug, PartialEq, Eq)]
pub enum Root {
    DataFolder,
    Repo,
}

/// Whether a job asks for bytes, or for their digests alone.
#[derive(Clone, Copy, Debug, PartialEq, Eq)]
pub enum JobKind {
    Read,
    Digest,
}

/// At most `size` bytes of a file, from `at` on. The path counts from the root.
#[derive(Debug, Drop)]
pub struct Item {
    pub root: Root,
    pub path: String,
    pub at: u64,
    pub size: u64,
}

#[derive(Debug, Drop)]
pub struct Job {
    pub kind: JobKind,
    pub items: Vec<Item>,
}

/// The folders of the two roots.
#[derive(Debug, Drop)]
pub struct Roots {
    pub tree: String,
    pub repo: String,
}

/// `Setup` and `Job` go to a worker, the others come from it.
#[derive(Debug, Drop)]
pub enum Frame {
    /// The first frame of a talk.
    Setup(Roots),
    Job(Job),
    /// The next bytes of an item.
    Part(Vec<u8>),
    /// An item was read to its end: the number of its bytes, and their digest.
    End { length: u64, sum: Sum },
    /// The item's file isn't there.
    Vanished,
    /// An item couldn't be read, and the reply has ended.
    Unread,
}
