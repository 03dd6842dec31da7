//! What the backups of stopped and of running servers share. This is what comes before the repository is changed, and
//! how the making of a backup ends the command.
//!
//! The stanza's list is validated against the archive pair's history first; then the data folder is listed, and the
//! workers are given their folders. What is to be made of the listing is left to the crates above.
//!
//! What is proved, by the contract of the function that is named:
//!
//! - `begin`: where it is Ok the folder had no `postmaster.pid`, and the pairs fit together and are of the cluster
//!   that was given. Fewer than 10,000 backups were listed. It only reads the data folder, and each refusal has its
//!   cause in what was there before; where the workers are lost none of them was steady.
//! - `finish`: it ends as the making of the backup did, with the line that it was handed at Ok. It changes nothing but
//!   the folder of its label and the backup pair. At Ok it stopped in a second that the clock showed, and both members
//!   of the backup pair are alike.
//! - Which folders the workers are given is stated of a private function alone.

mod backup_begin;
mod data_listing;
mod fault;
mod making;
mod order;
mod room_check;
mod texts;
mod worker_setup;

pub use backup_begin::{Begun, begin};
pub use fault::{BackupFault, of_make, of_plan, of_second};
pub use making::{count_of, finish, label_line};
pub use order::{KnownStanza, TakeOrder};
pub use room_check::{check_room, fit};
pub use texts::{backup_message, backup_status};
pub use worker_setup::start_workers;
