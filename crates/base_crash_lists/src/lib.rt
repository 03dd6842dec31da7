//! The crash theorem over lists of calls of the program, with crashes at any moment, on a repository and a spool.
//!
//! - `specs/Beside` says that a call keeps to its stanza: besides that stanza's folders a disk holds what it held, and
//!   a crash leaves no more than before.
//! - `specs/Trace` has all that can happen to the two disks, as one inductive definition, and the log that it makes of
//!   each stanza.
//! - `proofs/Kept` has the theorem: after each story the two disks keep the log of every stanza, and so does all that a
//!   crash then leaves of them.
//!
//! No function: the theorem `headline`, of all stories, and lemmas: a call that keeps to its stanza keeps the logs of
//! all others.
#![tactic(auto)]
