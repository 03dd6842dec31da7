//! The two info files, `archive.info` and `backup.info`: their values, and the texts of these.
//!
//! What is proved, by the contract of the function that is named:
//!
//! - `ArchiveInfo` and `BackupInfo` meet `Info`: their sections are those of the definition.
//! - Both meet `ReadInfo`: each is read from exactly its texts, and of another text the wrong line, the wrong checksum
//!   or a wrong key is reported.
#![tactic(auto)]

mod archive_current;
mod archive_info;
mod archive_reader;
mod backup_current;
mod backup_info;
mod backup_reader;
mod cluster_ids;
mod cluster_reader;
mod entries;
mod entry_parts;
mod entry_reader;
mod fault;
mod history;
mod info;
mod limits;
mod listed;
mod read_info;
mod texts;

pub use backup_info::cluster_part;
pub use entries::kind_value;
pub use entry_parts::{label_in, second_in};
pub use fault::MemberFault;
pub use info::Info;
pub use read_info::ReadInfo;
pub use texts::sections_in;
