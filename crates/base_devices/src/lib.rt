//! The outside: the objects that are handed to the program, and what their calls mean.
//!
//! What is proved, by the contract of the function that is named:
//!
//! - `Disk`, `DataFolder`, `Files`, `OutputStream`, `InputFiles`, `Locks`, `ServerConnection`, `Clock` and `Link` say
//! what each call does.
//! - `Clock` never goes back, shows no second past the year 9999, and after a wait shows a later one.
//! - `Scheduler` picks one of those that there are. A boxed `Link` is one, with the same meaning.
//! - `NotThere` meets them all but `DataFolder`, `OutputStream` and `Scheduler`.
#![tactic(auto)]

mod data_folder;
mod device_error;
mod devices;
mod disk;
mod files;
mod links;
mod locks;
mod not_there;
mod output_stream;

pub use data_folder::{DataFolder, FolderEntry, Node, ReadableFile};
pub use device_error::DeviceError;
pub use devices::{Clock, InputFiles, ServerConnection};
pub use disk::{Disk, Found};
pub use files::Files;
pub use links::{Link, Scheduler};
pub use locks::{LockAnswer, Locks};
pub use not_there::NotThere;
pub use output_stream::OutputStream;
