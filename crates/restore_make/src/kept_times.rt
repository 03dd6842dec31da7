// The files that are kept get the backup's times.
ghost use Rattle.std.specs.Prelude.{◌≡◌, true, map, OnOk};
ghost use Rattle.base_devices.specs.Cause.{HasCause};
ghost use Rattle.base_devices.specs.Order.{are_in_order};
ghost use Rattle.base_model.specs.Values.{file_entry_of};
ghost use Rattle.restore_steps.specs.Trees.{ProperWhere, SameWhere};
ghost use Rattle.restore_make.specs.KeptTimes.{one_marked, all_marked, IsUnmarked, AreThere, TimesMarked};

use crate::restore_plan::mark_at;
use base_devices::{DataFolder, DeviceError};
use base_model::FileEntry;

// Gives a file its time, where it is kept.
fn time_one<T: DataFolder>(tree: &mut T, file: &FileEntry, kept: bool) -> Result<(), DeviceError>
    ensures timed { OnOk result (TimesMarked (one_marked file.now kept) (T.state tree.old) (T.state tree.new)) }
    ensures others { SameWhere (IsUnmarked (one_marked file.now kept)) (T.state tree.old) (T.state tree.new) }
    ensures proper { ProperWhere (AreThere (one_marked file.now kept)) (T.state tree.old) (T.state tree.new) }
    ensures opened { (T.state tree.new).opened ≡ (T.state tree.old).opened }
    ensures cause { HasCause (T.state tree.old).faults (T.state tree.new).faults result }
{
    if !kept {
        return Ok(());
    }
    tree.set_time(&file.path, file.time)
}

/// Gives each file that is kept the time that the backup has of it.
pub(crate) fn time_kept<T: DataFolder>(
    tree: &mut T,
    files: &[FileEntry],
    marks: &[bool],
) -> Result<(), DeviceError>
    requires order { are_in_order (map (λ e. e.path) (map file_entry_of files.now)) ≡ true }
    ensures timed { OnOk result (TimesMarked (all_marked files.now marks.now) (T.state tree.old) (T.state tree.new)) }
    // Whatever the result, nothing else has changed.
    ensures others { SameWhere (IsUnmarked (all_marked files.now marks.now)) (T.state tree.old) (T.state tree.new) }
    // Where these files are there, no call is faulty.
    ensures proper { ProperWhere (AreThere (all_marked files.now marks.now)) (T.state tree.old) (T.state tree.new) }
    ensures opened { (T.state tree.new).opened ≡ (T.state tree.old).opened }
    ensures cause { HasCause (T.state tree.old).faults (T.state tree.new).faults result }
{
    for place in 0..files.len() {
        let kept = mark_at(marks, place);
        time_one(tree, &files[place], kept)?;
    }
    Ok(())
}
