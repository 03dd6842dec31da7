// Deals out the links to the steps of a rehearsal.
ghost use Rattle.std.specs.Prelude.{◌≤◌, map, vec_len, IfOk, OnOk};
ghost use Rattle.worker_pool.specs.Pools.{links_in};
ghost use Rattle.worker_pool.specs.Run.{AreReady};

use base_devices::Link;
use std::alloc::{AllocError, Global};
use worker_pool::Pool;

// Takes as many links as are asked for, or all.
fn take_links<L: Link>(alloc: Global, links: &mut Vec<L>, count: u32) -> Result<Vec<L>, AllocError>
    requires { AreReady (map L.link_state links.old.items) }
    ensures taken { IfOk result (λ taken. AreReady (map L.link_state taken.items)) }
    ensures count { IfOk result (λ taken. vec_len taken ≤ count) }
    ensures left { AreReady (map L.link_state links.new.items) }
{
    let mut taken = Vec::new(alloc);
    for _got in 0..count {
        let Some(link) = links.pop() else {
            return Ok(taken);
        };
        taken.push(link)?;
    }
    Ok(taken)
}

/// Leaves as many links in the pool as are asked for, or all, and gives back the others.
pub(crate) fn deal_links<L: Link, U>(
    alloc: Global,
    pool: &mut Pool<L, U>,
    count: u32,
) -> Result<Vec<L>, AllocError>
    requires { AreReady (links_in L.link_state pool.old) }
    ensures count { OnOk result (vec_len pool.new.links ≤ count) }
    ensures others { IfOk result (λ others. AreReady (map L.link_state others.items)) }
    ensures left { AreReady (links_in L.link_state pool.new) }
{
    let dealt = take_links(alloc, &mut pool.links, count)?;
    Ok(std::mem::replace(&mut pool.links, dealt))
}
