//! Manifests: their texts, and the two members in which each is kept.
//!
//! What is proved, by the contract of the function that is named:
//!
//! - `decode`: the manifest exactly where the bytes are its text; else a fault that is there. `encode`: the one text of
//!   a manifest.
//! - `locate`: the name and the byte at which a file's bytes lie, none exactly for a file without bytes.
//! - `load_manifest`: the main member's manifest, else the copy's, or the cause. `save_manifest`: main member, then
//!   copy, and what a crash leaves. A text that is too long is reported with its length and changes nothing.
#![tactic(auto)]

mod backup_section;
mod byte_places;
mod cluster;
mod cross_rules;
mod decoder;
mod encoder;
mod entries;
mod file_reader;
mod file_sections;
mod files;
mod folders;
mod head;
mod head_part;
mod known;
mod log;
mod manifest_files;
mod option_section;
mod path_folders;
mod paths;
mod positions;
mod section_reader;
mod sizes;
mod stored;
mod values;
mod write_fault;

pub use byte_places::{Holder, Place, Spot, locate};
pub use decoder::decode;
pub use encoder::encode;
pub use manifest_files::{load_manifest, manifest_name, save_manifest};
pub use stored::Stored;
pub use write_fault::WriteFault;
