//! A pair of info files: the two members in which a value of any kind is kept, saved, read and healed.
//!
//! What is proved, by the contract of the function that is named:
//!
//! - `save_pair`, `save_text`: main member, then copy, and what a crash leaves.
//! - `load_pair`: the value of the main member where that is a text, else of the copy; else why neither is, by its
//!   bytes.
//! - `heal_members`: both members then have the value's text, and a crash leaves some of these writes. Where all that a
//!   crash left had of both what the disk held, it does so at Ok.
//! - `heal_pair`: both in one; and where there is no value nothing is written.
#![tactic(auto)]

mod fault;
mod members;
mod pair_heal;
mod pair_load;
mod pair_save;

pub use fault::{InfoFault, SaveFault};
pub use members::save_text;
pub use pair_heal::{heal_members, heal_pair};
pub use pair_load::load_pair;
pub use pair_save::save_pair;
