//! The archive of a stanza: stores files of the log, and reads them back.
//!
//! What is proved, by the contract of the function that is named:
//!
//! - `push`: a file of the log is stored, a whole or a partial segment under the sum of its bytes, a timeline history
//!   or a backup history file as it is; or the repository is as before. This holds after every answer and every crash.
//! - It holds also where a crash may leave other files than the disk has, as long as none that is looked at is
//!   unsynced. At Ok each crash leaves the file alike.
//! - Only the file's name and temporary ones change, all of them below the stanza's folder of the archive. Nothing does
//!   where it was stored already or is refused for what was found.
//! - `push_from`: the same, of bytes that are read in pieces from a source whose contents are known. Where they are
//!   unknown, each answer is that of some bytes that begin as its first bytes do and are as many as was given.
//! - At the answer that the file is new, exactly these bytes are put. After any other, some bytes at most are, which
//!   aren't claimed to be these; so also in what a crash leaves.
//! - `get`: the bytes of a stored file, and of a segment only bytes that have the sum of its name. `present`: where a
//!   file is stored, by its name. What these two answer each crash leaves alike: they sync the names of the file's
//!   folder first, as a push does. Both change nothing.
//! - `sum_of`: the sum of bytes that are read in pieces.
//! - Each answer of these five has its cause.
#![tactic(auto)]

mod fault;
mod file_lookup;
mod pieces;
mod pushing;
mod staging;
mod stream_sum;

pub use fault::PushFault;
pub use file_lookup::{get, present};
pub use pieces::{ByteSource, Prefix};
pub use pushing::{Pushed, push, push_from};
pub use stream_sum::sum_of;
