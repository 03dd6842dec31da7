//! The keys of an info text's sections: finds values, the first difference of two sections, and the fault of a key.
//!
//! What is proved, by the contract of the function that is named:
//!
//! - `find`, `part_of`, `keys_at`, `is_key`: the value at a key, the section of a name, and that there is none.
//! - `first_difference`: the first key at which two sections differ, and none where they are the same. `are_same`: two
//!   values are the same exactly where their texts are.
//! - `check_names`: each section has one of these names, or else the first key of one that has none is the fault's.
//! - `whole_at`, `number_at`, `version_at` and the rest: what is at a key, of each form of number.
#![tactic(auto)]

mod at_key;
mod by_key;
mod differences;
mod fault;
mod foreign_sections;
mod key_lookup;
mod key_search;
mod values;

pub use at_key::{major_at, number_at, small_at, system_at, version_at, whole_at};
pub use by_key::place;
pub use differences::first_difference;
pub use fault::PartsFault;
pub use foreign_sections::check_names;
pub use key_lookup::{find, form, keys_at, part_of};
pub use key_search::is_key;
pub use values::{are_same, history_number, number_of, small_of, version_of, whole_of};
