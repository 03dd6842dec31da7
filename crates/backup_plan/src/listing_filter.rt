// What of a listing a backup takes.
ghost use Rattle.std.specs.Prelude.{◌≡◌, ◌∷◌, [], true, map, IfOk, IfErr, OnOk, OnErr};
ghost use Rattle.backup_plan.specs.Filter.{is_kept, kept, files_of, folders_of, IsFine, AreFine, IsRefused, IsRefusedNode, IsTimed, AreTimed, ShowsNoFolder, Takes};
ghost use Rattle.backup_plan.specs.Planned.{AddsFiles, AddsFolders};
ghost use Rattle.backup_plan.specs.Views.{seen_of, taken_files, taken_folders};

use crate::fault::PlanFault;
use crate::file_limits::{missing_file, passed_limit};
use crate::listing_order::is_ordered;
use crate::omissions::is_omitted;
use crate::values::{Listing, Taken};
use base_devices::{FolderEntry, Node};
use repo_names::check_name;
use std::alloc::{AllocError, Global};

// Neither left out, nor a socket, a pipe or a device.
fn is_looked_at(online: bool, seen: &FolderEntry) -> bool
    ensures { result ≡ is_kept online (seen_of seen.now) }
{
    !is_omitted(online, &seen.path, &seen.node) && !matches!(seen.node, Node::Other)
}

// Refuses a node that can't be in a backup.
fn check_node(seen: &FolderEntry) -> Result<(), PlanFault>
    ensures fine { OnOk result (IsFine (seen_of seen.now)) }
    ensures refused { IfErr result (IsRefusedNode (seen_of seen.now)) }
{
    if matches!(seen.node, Node::Link) {
        return Err(PlanFault::LinkFound {
            path: seen.path.clone()?,
        });
    }
    match check_name(&seen.path) {
        Ok(()) => Ok(()),
        Err(fault) => Err(PlanFault::NameRefused {
            path: seen.path.clone()?,
            fault,
        }),
    }
}

// Adds a node to what is taken.
fn add(listing: &mut Listing, seen: &FolderEntry) -> Result<(), AllocError>
    ensures files { OnOk result (AddsFiles (seen_of seen.now ∷ []) listing.old listing.new) }
    ensures folders { OnOk result (AddsFolders (seen_of seen.now ∷ []) listing.old listing.new) }
    ensures timed { OnOk result (IsTimed (seen_of seen.now)) }
{
    match seen.node {
        Node::File { size, time } => {
            let path = seen.path.clone()?;
            listing.files.push(Taken { path, size, time })?;
        }
        Node::Folder => listing.folders.push(seen.path.clone()?)?,
        Node::Link | Node::Other => {}
    }
    Ok(())
}

// Takes a node, where it isn't left out.
fn take(listing: &mut Listing, seen: &FolderEntry, online: bool) -> Result<(), PlanFault>
    ensures fine { OnOk result (AreFine (kept online (seen_of seen.now ∷ []))) }
    ensures files { OnOk result (AddsFiles (kept online (seen_of seen.now ∷ [])) listing.old listing.new) }
    ensures folders { OnOk result (AddsFolders (kept online (seen_of seen.now ∷ [])) listing.old listing.new) }
    ensures timed { OnOk result (AreTimed (kept online (seen_of seen.now ∷ []))) }
    ensures kept { OnErr result (is_kept online (seen_of seen.now) ≡ true) }
    ensures refused { IfErr result (IsRefusedNode (seen_of seen.now)) }
{
    if !is_looked_at(online, seen) {
        return Ok(());
    }
    check_node(seen)?;
    add(listing, seen)?;
    Ok(())
}

// The files and folders of a listing.
fn collect(alloc: Global, seen: &[FolderEntry], online: bool) -> Result<Listing, PlanFault>
    ensures fine { OnOk result (AreFine (kept online (map seen_of seen.now))) }
    ensures files { IfOk result (λ l. taken_files l ≡ files_of (kept online (map seen_of seen.now))) }
    ensures folders { IfOk result (λ l. taken_folders l ≡ folders_of (kept online (map seen_of seen.now))) }
    ensures timed { OnOk result (AreTimed (kept online (map seen_of seen.now))) }
    ensures refused { IfErr result (IsRefused (kept online (map seen_of seen.now))) }
{
    let mut listing = Listing {
        files: Vec::new(alloc),
        folders: Vec::new(alloc),
    };
    for node in seen {
        take(&mut listing, node, online)?;
    }
    Ok(listing)
}

/// The files and folders of a listing that a backup takes, with the server running (`online`) or stopped.
pub fn filter(alloc: Global, seen: &[FolderEntry], online: bool) -> Result<Listing, PlanFault>
    ensures takes { IfOk result (λ l. Takes online (map seen_of seen.now) (taken_files l) (taken_folders l)) }
    ensures refused { IfErr result (IsRefused (kept online (map seen_of seen.now))) }
    // A listing that shows a folder's nodes is never asked to be out of order.
    ensures orderly { result ≡ Err PlanFault.Unordered → ShowsNoFolder (map seen_of seen.now) }
{
    let listing = collect(alloc, seen, online)?;
    if !is_ordered(&listing.files, &listing.folders) {
        return Err(PlanFault::Unordered);
    }
    if let Some(path) = missing_file(&listing.files) {
        return Err(PlanFault::ControlMissing {
            path: String::from_str(alloc, path)?,
        });
    }
    if let Some(limit) = passed_limit(&listing.files) {
        return Err(PlanFault::TooMany { limit });
    }
    Ok(listing)
}
