// Gives each link of a run its slot, and gives back those that are left.
ghost use Rattle.std.specs.Prelude.{◌≡◌, ◌++◌, [], Some, map, IfOk, OnOk};
ghost use Rattle.worker_pool.specs.Run.{somes};

use base_devices::Link;
use std::alloc::{AllocError, Global};

/// Takes all links, each into its slot.
pub(crate) fn slot_all<L: Link>(
    alloc: Global,
    links: &mut Vec<L>,
) -> Result<Vec<Option<L>>, AllocError>
    ensures taken { links.new.items ≡ [] }
    ensures slots { IfOk result (λ slots. slots.items ≡ map Some links.old.items) }
{
    let mut slots = Vec::new(alloc);
    for link in std::mem::replace(links, Vec::new(alloc)) {
        slots.push(Some(link))?;
    }
    Ok(slots)
}

/// Gives back the links that are left, in their order.
pub(crate) fn free_slots<L: Link>(
    links: &mut Vec<L>,
    slots: Vec<Option<L>>,
) -> Result<(), AllocError>
    ensures { OnOk result (links.new.items ≡ links.old.items ++ somes slots.items) }
{
    for slot in slots {
        if let Some(link) = slot {
            links.push(link)?;
        }
    }
    Ok(())
}
