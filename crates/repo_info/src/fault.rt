// Why a text has no value.
use base_text::Sum;

/// Why a member of a pair has no value.
#[derive(Debug, Drop)]
pub enum MemberFault {
    Absent,
    TooLong,
    /// No info text continues as this line does, or it ends too soon.
    Syntax { line: u32 },
    /// It states another checksum than its own.
    Sum { known: Sum, found: Sum },
    /// The key is missing, foreign or of another kind.
    Form { section: String, key: String },
}
