//! The cluster that a rehearsal makes: its files, the segments of its log, and its data folder.
//!
//! - `values`: the files and the segments of the cluster, by its number.
//! - `folder`: makes the data folder, lets it grow between its backups, and damages it before it is restored.
#![tactic(auto)]

mod folder;
mod values;

pub use folder::{FolderFault, grow_cluster, make_cluster, spoil_cluster};
pub use values::{
    CONTROL_PATH, FOLDERS, SYSTEM, VERSION_BYTES, VERSION_PATH, control_bytes, relation_bytes,
    relation_path, segment_bytes, zeros,
};
