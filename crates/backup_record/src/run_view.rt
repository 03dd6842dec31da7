// How a backup went, from the ends of its jobs.
ghost use Rattle.std.specs.Prelude.{◌≡◌, true, map};
ghost use Rattle.base_devices.specs.Order.{are_in_order};
ghost use Rattle.base_model.specs.Values.{file_entry_of};
ghost use Rattle.backup_record.specs.Sums.{sums};
ghost use Rattle.backup_record.specs.Views.{run_with, went_of};

use crate::ran::Ran;
use backup_sink::EndedItem;
use base_model::{FileEntry, Label};

/// How a backup went that has these ends, with what lies before each.
pub fn went<'a>(
    prior: Label,
    old: &'a [FileEntry],
    singles: u32,
    ends: &'a [Vec<EndedItem>],
    places: &'a [Vec<u64>],
) -> Ran<'a>
    requires order { are_in_order (map (λ e. e.path) (map file_entry_of old.now)) ≡ true }
    requires places { map (λ v. v.items) places.now ≡ map (sums 0) (map (λ v. v.items) ends.now) }
    ensures went { went_of result ≡ run_with prior old.now singles ends.now }
{
    Ran {
        prior,
        old,
        singles,
        ends,
        places,
    }
}
