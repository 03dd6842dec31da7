//! archive-get: serves a file of the archive to the data folder.
//!
//! What is proved, by the contract of the function that is named:
//!
//! - `get_order`: the file and the path that the arguments name, or why they name none.
//! - `get_file`: the data folder has the file at the path, or the archive doesn't have it, and this holds of all that a
//!   crash leaves. Only that path and its temporary name change, and nothing where it is refused. Each refusal has its
//!   cause, with its status and its message.
//! - `find_file`: where the file is stored that `get_file` would serve, and with which sum.
//! - `pass_on`, `put_file`: a file with this sum is put at a path of the data folder, whole or not at all.
#![tactic(auto)]

mod archive_get;
mod fault;
mod id_search;
mod order;
mod served_file;
mod stored_place;
mod texts;

pub use archive_get::get_file;
pub use fault::{GetFault, of_archive};
pub use order::{GetOrder, get_order};
pub use served_file::{Passed, pass_on, put_file};
pub use stored_place::find_file;
pub use texts::{get_message, get_status};
