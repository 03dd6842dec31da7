//! Makes the data folder of a sample cluster, lets it grow between its backups, and damages it before it is restored.
//!
//! What is proved, by the contract of the function that is named:
//!
//! - `make_cluster`: at Ok the folder was empty and has exactly the files and folders of the new cluster. A folder that
//!   isn't empty is refused and left alone.
//! - `grow_cluster`, `spoil_cluster`: at Ok of the folder's files exactly those have changed that the definition
//!   changes.
//! - After every other answer only paths of the cluster have changed. The folder's calls are made as they ask, it isn't
//!   opened anew, and each refusal has its cause.

mod fault;
mod sample_changes;
mod sample_cluster;
mod sample_files;

pub use fault::FolderFault;
pub use sample_changes::{grow_cluster, spoil_cluster};
pub use sample_cluster::make_cluster;
