// What a running server says about a backup.
use base_model::WalPart;

/// What a backup of a running server has besides what its workers read.
#[derive(Drop)]
pub struct Online {
    /// the part of the log that a restored server needs
    pub wal: WalPart,
    /// what its label file holds
    pub label_file: String,
}
