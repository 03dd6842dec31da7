//! Where the bytes of a backup's files lie in the repository, as items and jobs for workers.
//!
//! What is proved, by the contract of the function that is named:
//!
//! - `source_item`, `source_job`: the item at an entry's place, in the folder of the label that holds it, and the job
//!   that reads it. Either may be sent to a worker, whatever the entry of a manifest.

mod file_source;

pub use file_source::{source_item, source_job};
