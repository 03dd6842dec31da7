// Starts the workers.
ghost use Rattle.std.specs.Prelude.{◌≡◌, ◌<◌, ◌^◌, vec_len, string_bytes, IfOk, IfErr, OnOk};
ghost use Rattle.worker_protocol.specs.Frames.{FitsRoots};
ghost use Rattle.worker_protocol.specs.Views.{roots_of};
ghost use Rattle.worker_pool.specs.Pools.{links_in};
ghost use Rattle.worker_pool.specs.Run.{AreReady};
ghost use Rattle.cmd_types.specs.Halts.{HaltCause};
ghost use Rattle.cmd_backup_common.specs.Beginning.{LostCause};
ghost use Rattle.cmd_backup_common.specs.Used.{LeavesUsed, used_in};

use crate::parts::fault::BackupFault;
use crate::parts::making::count_of;
use crate::parts::order::TakeOrder;
use base_devices::Link;
use cmd_types::Halt;
use std::alloc::{AllocError, Global};
use worker_pool::{DispatchFault, Pool, setup};
use worker_protocol::Roots;

// The folders that each worker is given.
fn roots_of(alloc: Global, order: &TakeOrder<'_>) -> Result<Roots, AllocError>
    ensures tree { IfOk result (λ r. string_bytes r.tree ≡ order.now.data_folder.now) }
    ensures repo { IfOk result (λ r. string_bytes r.repo ≡ order.now.repository.now) }
    ensures fits { IfOk result (λ r. FitsRoots (roots_of r)) }
{
    let tree = String::from_str(alloc, order.data_folder)?;
    let repo = String::from_str(alloc, order.repository)?;
    Ok(Roots { tree, repo })
}

/// Keeps as many links as there are to be workers, and gives each its folders. A link over which that fails is lost, and
/// is the first to be reported: losses from before are forgotten.
pub fn start_workers<L: Link, U>(
    alloc: Global,
    pool: &mut Pool<L, U>,
    order: &TakeOrder<'_>,
) -> Result<(), Halt<BackupFault>>
    requires few { vec_len pool.old.links < 2 ^ 32 }
    requires ready { AreReady (links_in L.link_state pool.old) }
    ensures left { OnOk result (LeavesUsed order.now L.link_state pool.old pool.new) }
    ensures few { OnOk result (vec_len pool.new.links < 2 ^ 32) }
    ensures ready { OnOk result (AreReady (links_in L.link_state pool.new)) }
    ensures cause { IfErr result (HaltCause (LostCause (used_in order.now L.link_state pool.old)) (λ _. ⊥)) }
{
    let roots = roots_of(alloc, order)?;
    pool.lost.clear();
    pool.links.truncate(order.workers as usize);
    match setup(alloc, pool, &roots) {
        Ok(()) => Ok(()),
        Err(DispatchFault::WorkersLost) => {
            let lost = count_of(&pool.lost);
            Err(Halt::Refused(BackupFault::WorkersLost { lost }))
        }
        Err(_) => Err(Halt::NoMemory),
    }
}
