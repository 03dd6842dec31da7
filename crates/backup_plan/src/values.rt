// A listing, and what is made of it (pgBackRest command reference, "Backup").
use worker_protocol::Job;

/// A file of a listing. Its size is in bytes, its time in seconds since 1970.
#[derive(Debug, Drop)]
pub struct Taken {
    pub path: String,
    pub size: u64,
    pub time: u64,
}

/// The files and folders that a backup takes, in byte order of their paths.
#[derive(Debug, Drop)]
pub struct Listing {
    pub files: Vec<Taken>,
    pub folders: Vec<String>,
}

/// How a backup is to be made.
#[derive(Clone, Copy, Debug, PartialEq, Eq)]
pub struct PlanSettings {
    /// A file is distinguished from the prior backup's by its digest, and else by its time.
    pub delta: bool,
    pub bundle: bool,
    /// this many listed bytes go into a bundle, where it has several files
    pub bundle_size: u64,
    /// only files of at most this many bytes are bundled
    pub bundle_limit: u64,
}

/// What is done about a file.
#[derive(Clone, Copy, Debug, PartialEq, Eq)]
pub enum Choice {
    /// It refers to the bytes of an earlier backup.
    Skip,
    /// It has no bytes.
    Empty,
    /// It is the one item of the job of this number.
    Alone { job: u32 },
    /// It is an item of the job of a bundle. Bundles count from 1, items from 0.
    Bundle { number: u32, item: u32 },
    /// It is the one item of the last job.
    Last,
}

/// What kind of file it is, whatever else is listed.
#[derive(Clone, Copy, Debug, PartialEq, Eq)]
pub enum What {
    Leave,
    Nothing,
    Single,
    Small,
    Control,
}

/// The choice of each file, and the jobs: those of single files, then those of bundles, then that of the control file.
#[derive(Debug, Drop)]
pub struct BackupPlan {
    pub choices: Vec<Choice>,
    /// how many jobs are of single files
    pub singles: u32,
    pub jobs: Vec<Job>,
}
