// How long the texts of the info files may be.

/// The texts of both info files have at most 64 MiB.
pub(crate) const LIMIT: u64 = 67_108_864;
