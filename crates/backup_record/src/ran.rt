// How a backup went.
ghost use Rattle.std.specs.Prelude.{◌≡◌, true, map, vec_items};
ghost use Rattle.base_devices.specs.Order.{are_in_order};
ghost use Rattle.base_model.specs.Values.{file_entry_of};
ghost use Rattle.backup_record.specs.Sums.{sums};

use backup_sink::EndedItem;
use base_model::{FileEntry, Label};

/// How a backup went: the label and the files of the prior one, how many jobs are of single files, how each item of
/// each job ended, and how many bytes lie before it.
#[derive(Drop)]
pub struct Ran<'a> {
    pub(crate) prior: Label,
    pub(crate) old: &'a [FileEntry],
    pub(crate) singles: u32,
    pub(crate) ends: &'a [Vec<EndedItem>],
    pub(crate) places: &'a [Vec<u64>],
    ghost order: { are_in_order (map (λ e. e.path) (map file_entry_of old.now)) ≡ true },
    ghost places_are: { map (λ v. v.items) places.now ≡ map (sums 0) (map (λ v. v.items) ends.now) },
}
