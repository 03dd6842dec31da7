// The sum of a file of the log.
ghost use Rattle.std.specs.Prelude.{◌≡◌, IfOk, IfErr};
ghost use Rattle.base_devices.specs.States.{OnlyReadsFolder};
ghost use Rattle.base_text.specs.Sum.{IsSum};
ghost use Rattle.cmd_archive_push_wait.specs.Faults.{halt_of_file};
ghost use Rattle.cmd_archive_push_wait.specs.Between.{IsSumOfLog, SumEnds};

use crate::fault::QueueFault;
use archive_store::sum_of;
use base_devices::DataFolder;
use base_text::Sum;
use cmd_archive_push::{PushFault, PushOrder, limit_of, open_log_file};
use cmd_types::{Halt, Object, halted};
use std::alloc::Global;

// Which fault a halt of opening a file is: of its refusals only these two come.
fn of_file(halt: Halt<PushFault>) -> Halt<QueueFault>
    ensures { result ≡ halt_of_file halt }
{
    match halt {
        Halt::Refused(PushFault::SegmentMissing { path }) => {
            Halt::Refused(QueueFault::SegmentMissing { path })
        }
        Halt::Refused(PushFault::TooLong { name, limit }) => {
            Halt::Refused(QueueFault::TooLong { name, limit })
        }
        Halt::Refused(_) => Halt::NoMemory,
        Halt::Failed(object) => Halt::Failed(object),
        Halt::NoMemory => Halt::NoMemory,
    }
}

/// The sum of the file that the order names.
pub(crate) fn sum_file<T: DataFolder>(
    alloc: Global,
    tree: &mut T,
    order: &PushOrder<'_>,
) -> Result<Sum, Halt<QueueFault>>
    ensures is_sum { IfOk result (λ sum. IsSum sum.0) }
    ensures sum { IfOk result (IsSumOfLog order.now.name (T.state tree.old)) }
    ensures looks { OnlyReadsFolder (T.state tree.old) (T.state tree.new) }
    ensures cause { IfErr result (SumEnds order.now (T.state tree.old) (T.state tree.new)) }
{
    let limit = limit_of(&order.name);
    let log = match open_log_file(alloc, tree, order.path, &order.text, limit) {
        Ok(log) => log,
        Err(halt) => return Err(of_file(halt)),
    };
    match sum_of(tree, &log, log.prefix()) {
        Ok(sum) => Ok(sum),
        Err(error) => Err(halted(Object::TheDataFolder, error)),
    }
}
