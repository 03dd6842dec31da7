//! The marks of the spool: which files of the log other processes stored, and which they refused.
//!
//! A receipt says that a file was stored, and has the sum of its bytes. A refusal says why a file wasn't, by a status
//! and its line. Both lie in the stanza's folder `out`, under the file's name.
//!
//! What is proved, by the contract of the function that is named:
//!
//! - `put_receipt`, `put_refusal`: at each moment, whatever a crash leaves, the mark's name has what it had or the
//!   whole mark. Nothing else changes but a temporary name, and no receipt is given but the one that is asked for.
//! - `ask`: exactly what the two marks of a file say. A receipt counts only where it has the sum that is asked for, and
//!   comes before a refusal. What isn't a mark's text counts as no mark. At Ok neither mark is left.
//! - `clear_marks`: each refusal is removed, and each receipt of none of these files; nothing else changes.
//! - `name_between`: the file whose name is between two texts.
//! - Each refusal has its cause.
#![tactic(auto)]

mod between;
mod mark_place;
mod names;
mod new_marks;
mod refusals;
mod spool_query;
mod stale_marks;

pub use between::name_between;
pub use new_marks::{put_receipt, put_refusal};
pub use spool_query::{Asked, ask};
pub use stale_marks::clear_marks;
