// The files of the log that are ready.
ghost use Rattle.std.specs.Prelude.{◌≡◌, IfOk, IfErr, IfSome, IfNone};
ghost use Rattle.base_devices.specs.States.{OnlyReadsFolder};
ghost use Rattle.archive_lookup.specs.Listing.{Picks};
ghost use Rattle.cmd_archive_push_async.specs.Ready.{AreReady, ShowsReady, PassesReady, is_file};
ghost use Rattle.cmd_archive_push_async.specs.Between.{FolderFails};

use archive_spool::name_between;
use base_devices::{DataFolder, FolderEntry, Node};
use base_model::ArchiveName;
use base_text::NoMemory;
use cmd_archive_push::PushFault;
use cmd_types::{Halt, Object, halted};
use std::alloc::Global;

fn is_file(node: Node) -> bool
    ensures { result ≡ is_file node }
{
    match node {
        Node::File { .. } => true,
        Node::Folder | Node::Link | Node::Other => false,
    }
}

// The file that is ready by this node.
fn ready_name(seen: &FolderEntry) -> Option<ArchiveName>
    ensures value { IfSome result (ShowsReady seen.now) }
    ensures none { IfNone result (PassesReady seen.now) }
{
    if !is_file(seen.node) {
        return None;
    }
    name_between(
        seen.path.as_bytes(),
        "pg_wal/archive_status/".as_bytes(),
        ".ready".as_bytes(),
    )
}

// The files that are ready by a listing of the folder.
fn names_among(alloc: Global, seen: &[FolderEntry]) -> Result<Vec<ArchiveName>, NoMemory>
    ensures { IfOk result (λ names. Picks ShowsReady PassesReady seen.now names.items) }
{
    let mut names = Vec::new(alloc);
    for each in seen {
        if let Some(name) = ready_name(each) {
            names.push(name)?;
        }
    }
    Ok(names)
}

/// The files of the log that are ready, in byte order of their names.
pub(crate) fn ready_names<T: DataFolder>(
    alloc: Global,
    tree: &mut T,
) -> Result<Vec<ArchiveName>, Halt<PushFault>>
    ensures ready { IfOk result (λ names. IfSome (T.state tree.old).nodes (λ f. AreReady f names.items)) }
    ensures looks { OnlyReadsFolder (T.state tree.old) (T.state tree.new) }
    ensures cause { IfErr result (FolderFails (T.state tree.old) (T.state tree.new)) }
{
    let seen = match tree.list_folder(alloc, "pg_wal/archive_status") {
        Ok(seen) => seen,
        Err(error) => return Err(halted(Object::TheDataFolder, error)),
    };
    match names_among(alloc, &seen) {
        Ok(names) => Ok(names),
        Err(_) => Err(Halt::NoMemory),
    }
}
