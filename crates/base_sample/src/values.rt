//! The cluster that a rehearsal makes, by its number: its files, and the segments of its log.
//!
//! `specs/Bytes` has the paths and the bytes, `specs/Folder` what the data folder holds as it was made, once it has
//! grown, and once it is damaged. What is proved, by the contract of the function that is named:
//!
//! - `relation_path`, `relation_bytes`, `control_bytes`, `zeros`, `segment_bytes`: each makes exactly the path or the
//!   bytes of the definition, a file at a time.

mod bytes;

pub use bytes::{
    CONTROL_PATH, FOLDERS, SYSTEM, VERSION_BYTES, VERSION_PATH, control_bytes, relation_bytes,
    relation_path, segment_bytes, zeros,
};
