//! stanza-create: makes the stanza of a data folder's cluster, or keeps the one that is there.
//!
//! What is proved, by the contract of the function that is named:
//!
//! - `create_stanza`, while both locks are held: the stanza is made, or kept and mended; all of it at Ok, a part after
//!   every answer and every crash, and nothing changes where it is refused.
//! - No name but the members of its two pairs and temporary ones changes. Where a server is asked, it is of the
//!   cluster's system at Ok, and the talk is ended. Each refusal has its cause, with its status and its message.
//! - `check_server`, for other commands too: where a server is asked, it is of this system at Ok, and the talk is ended.
//!   Each refusal of its answer has its cause.
#![tactic(auto)]

mod fault;
mod server;
mod server_check;
mod stanza_creation;
mod texts;

pub use fault::CreateFault;
pub use server::Server;
pub use server_check::{check_server, socket_path};
pub use stanza_creation::create_stanza;
pub use texts::{create_message, create_status};
