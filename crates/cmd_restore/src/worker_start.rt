// Starts the workers.
ghost use Rattle.std.specs.Prelude.{◌≡◌, ◌<◌, ◌^◌, [], length, vec_len, string_bytes, IfOk, IfErr, OnOk};
ghost use Rattle.worker_protocol.specs.Frames.{FitsRoots};
ghost use Rattle.worker_protocol.specs.Views.{roots_of};
ghost use Rattle.worker_pool.specs.Pools.{links_in};
ghost use Rattle.worker_pool.specs.Run.{AreReady};
ghost use Rattle.cmd_restore.specs.Putting.{LeavesUsed, StartHalts};

use crate::fault::RestoreCommandFault;
use crate::order::RecoverOrder;
use base_devices::Link;
use cmd_types::Halt;
use std::alloc::{AllocError, Global};
use worker_pool::{DispatchFault, Lost, Pool, setup};
use worker_protocol::Roots;

// The folders that each worker is given.
fn roots_of(alloc: Global, order: &RecoverOrder<'_>) -> Result<Roots, AllocError>
    ensures tree { IfOk result (λ r. string_bytes r.tree ≡ order.now.data_folder.now) }
    ensures repo { IfOk result (λ r. string_bytes r.repo ≡ order.now.repository.now) }
    ensures fits { IfOk result (λ r. FitsRoots (roots_of r)) }
{
    let tree = String::from_str(alloc, order.data_folder)?;
    let repo = String::from_str(alloc, order.repository)?;
    Ok(Roots { tree, repo })
}

/// How many were lost.
pub(crate) fn count_of(lost: &[Lost]) -> u32
    ensures { length lost.now < 2 ^ 32 → result ≡ length lost.now }
{
    u32::try_from(lost.len()).unwrap_or(u32::MAX)
}

/// Keeps as many links as there are to be workers, and gives each its folders. A link over which that fails is lost.
pub(crate) fn start_workers<L: Link, U>(
    alloc: Global,
    pool: &mut Pool<L, U>,
    order: &RecoverOrder<'_>,
) -> Result<(), Halt<RestoreCommandFault>>
    requires few { vec_len pool.old.links < 2 ^ 32 }
    requires ready { AreReady (links_in L.link_state pool.old) }
    requires none { pool.old.lost.items ≡ [] }
    ensures left { OnOk result (LeavesUsed order.now L.link_state pool.old pool.new) }
    ensures few { OnOk result (vec_len pool.new.links < 2 ^ 32) }
    ensures ready { OnOk result (AreReady (links_in L.link_state pool.new)) }
    ensures cause { IfErr result (StartHalts order.now L.link_state pool.old) }
{
    let roots = roots_of(alloc, order)?;
    pool.links.truncate(order.workers as usize);
    match setup(alloc, pool, &roots) {
        Ok(()) => Ok(()),
        Err(DispatchFault::WorkersLost) => {
            let lost = count_of(&pool.lost);
            Err(Halt::Refused(RestoreCommandFault::WorkersLost { lost }))
        }
        Err(_) => Err(Halt::NoMemory),
    }
}
