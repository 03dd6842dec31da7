// How a command succeeded.

/// How a command succeeded.
#[derive(Debug, Drop)]
pub enum Outcome {
    /// With these lines, each with its newline.
    Finished { lines: String },
    /// The archive has no file of this name.
    Absent { name: String },
    /// It is done, and what was looked at isn't as it should be: a line a finding, and how many there are.
    FindingsFound { lines: String, count: usize },
}
