// Gives workers their roots.
ghost use Rattle.std.specs.Prelude.{◌≡◌, ◌≢◌, ◌<◌, ◌^◌, [], vec_len, IfErr, OnOk, OnErr};
ghost use Rattle.worker_protocol.specs.Frames.{FitsRoots};
ghost use Rattle.worker_protocol.specs.Views.{roots_of};
ghost use Rattle.worker_pool.specs.Pools.{links_in, LeavesLinksAfter, ReportsLosses, KeepsOrReports, SetupEndsEarly};
ghost use Rattle.worker_pool.specs.Run.{AreReady};
ghost use Rattle.worker_pool.specs.Setups.{IsSetup};

use crate::dispatch::fault::{DispatchFault, Lost};
use crate::pool::Pool;
use base_devices::{DeviceError, Link};
use std::alloc::Global;
use worker_protocol::{LostCause, Roots, encode_setup};

/// Sends the frame over a link, and keeps the link among the others, or reports that it is lost.
fn set_up<L: Link, S>(
    mut link: L,
    frame: &[u8],
    place: u32,
    pool: &mut Pool<L, S>,
) -> Result<(), DispatchFault>
    ensures kept { OnOk result (KeepsOrReports frame.now place link L.link_state pool.old pool.new) }
    ensures fault { IfErr result (λ e. e ≡ DispatchFault.NoMemory) }
    ensures known { OnErr result (pool.new.lost.items ≡ pool.old.lost.items) }
{
    match link.send(frame) {
        Ok(()) => {
            pool.links.push(link)?;
            Ok(())
        }
        Err(DeviceError::NoMemory) => Err(DispatchFault::NoMemory),
        Err(DeviceError::Failed) => {
            pool.lost.push(Lost {
                place,
                cause: LostCause::Device,
            })?;
            Ok(())
        }
    }
}

/// Sends the frame over all links, and keeps those over which it went.
fn set_up_all<L: Link, S>(
    alloc: Global,
    pool: &mut Pool<L, S>,
    frame: &[u8],
) -> Result<(), DispatchFault>
    requires few { vec_len pool.old.links < 2 ^ 32 }
    requires ready { AreReady (links_in L.link_state pool.old) }
    requires setup { IsSetup frame.now }
    ensures left { OnOk result (LeavesLinksAfter [] L.link_state pool.old pool.new) }
    ensures fault { IfErr result (λ e. e ≡ DispatchFault.NoMemory) }
    ensures known { OnErr result (ReportsLosses [] L.link_state pool.old pool.new) }
{
    let mut place = 0u32;
    for link in std::mem::replace(&mut pool.links, Vec::new(alloc)) {
        set_up(link, frame, place, pool)?;
        place = place.saturating_add(1);
    }
    Ok(())
}

/// Gives all workers their roots. A link over which that fails is lost. After a refusal no link is left.
#[tactic(auto, using(crate::proofs::Setting::setup_known, crate::proofs::Whole::adds_none))]
pub fn setup<L: Link, S>(
    alloc: Global,
    pool: &mut Pool<L, S>,
    roots: &Roots,
) -> Result<(), DispatchFault>
    requires few { vec_len pool.old.links < 2 ^ 32 }
    requires ready { AreReady (links_in L.link_state pool.old) }
    requires fits { FitsRoots (roots_of roots.now) }
    // The links that weren't lost are left in their order, with nothing to give, and one at least. Each of the others
    // is reported, and no steady worker is.
    ensures left { OnOk result (LeavesLinksAfter [] L.link_state pool.old pool.new) }
    ensures some { OnOk result (pool.new.links.items ≢ []) }
    // Whatever the result, no entry is removed, and each further one is of a link that isn't a steady worker.
    ensures known { ReportsLosses [] L.link_state pool.old pool.new }
    ensures fault { IfErr result (SetupEndsEarly L.link_state pool.old pool.new) }
    ensures refused { IfErr result (λ _. pool.new.links.items ≡ []) }
{
    let Ok(frame) = encode_setup(alloc, roots) else {
        pool.links.clear();
        return Err(DispatchFault::NoMemory);
    };
    if set_up_all(alloc, pool, &frame).is_err() {
        pool.links.clear();
        return Err(DispatchFault::NoMemory);
    }
    if pool.links.is_empty() {
        return Err(DispatchFault::WorkersLost);
    }
    Ok(())
}
