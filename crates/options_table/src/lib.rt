//! The options, a row for each: which commands have it, where it may be, what it takes, and its default.
//!
//! What is proved, by the contract of the function that is named:
//!
//! - `row_for`: the row of the definition; `types_of`: the types of restore to which it is bound.
//! - `value_of`: the value that a text represents, by the option's kind, or that it is none; `is_repeatable`: whether
//!   an option of the kind may be given more than once.
//! - Each default is one of its option's values, no command has two options of one name, and each option is in the
//!   table.
#![tactic(auto)]

mod amount;
mod commands;
mod laws;
mod rows;
mod table;
mod value;

pub use rows::{row_for, types_of};
pub use table::{
    Fallback, Opt, OptionKind, Place, Row, TABLE, VERBS, Verb, is_repeatable, verb_word,
};
pub use value::{Value, value_of};
