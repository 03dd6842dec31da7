//! Lemmas: a text of `archive.info`, of `backup.info` or of a manifest is the text of one value alone.
//!
//! - `proofs/Archives` has this of `archive.info`.
//! - `proofs/Lists` has it of `backup.info`, and `proofs/Entries` of one listed backup.
//! - `proofs/Manifests` has it of a manifest, `proofs/Logs` of its part of the log, and `proofs/Files` of its files and
//!   folders.
//!
//! No function: the lemmas above.
#![tactic(auto)]
