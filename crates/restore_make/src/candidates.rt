// Files of the data folder that may be kept.
ghost use Rattle.std.specs.Prelude.{◌≡◌, ◌≢◌, ◌<◌, ◌^◌, ℕ, true, map, length, slice_get, IfOk, OnOk, IfSome, IfNone, string_bytes};
ghost use Rattle.std.specs.Ordering.{nat_cmp};
ghost use Rattle.std.specs.Cmp.Lexicographic.{slice_cmp};
ghost use Rattle.base_devices.specs.Order.{are_in_order};
ghost use Rattle.base_model.specs.Text.{In};
ghost use Rattle.base_model.specs.Values.{FileEntry as Entry, file_entry_of};
ghost use Rattle.restore_make.specs.Options.{recovery_of};
ghost use Rattle.restore_make.specs.Candidates.{IsCandidateFor, IsNoCandidate, AddsCandidateFor, AreCandidatesFor, HasCandidatesFor};
ghost use Rattle.restore_make.specs.Digested.{is_like, IsPlaceOf};

use crate::options::{Recovery, is_ordinary};
use base_devices::{FolderEntry, Node};
use base_model::FileEntry;
use std::alloc::{AllocError, Global};
use std::cmp::Ordering;

/// A file of the manifest, by its place there, that the data folder may have already.
#[derive(Clone, Copy)]
pub(crate) struct Candidate<'a> {
    pub(crate) place: usize,
    pub(crate) file: &'a FileEntry,
}

// How a path compares to another in byte order.
fn order_of(a: &[u8], b: &[u8]) -> Ordering
    ensures { result ≡ slice_cmp nat_cmp a.now b.now }
{
    a.cmp(&b)
}

/// The place of the file of this path, among files in byte order of their paths.
pub(crate) fn place_of(files: &[FileEntry], path: &str) -> Option<usize>
    requires { are_in_order (map (λ e. e.path) (map file_entry_of files.now)) ≡ true }
    ensures within { IfSome result (λ i. i < length files.now) }
    ensures some { IfSome result (IsPlaceOf (map file_entry_of files.now) path.now) }
    ensures none { IfNone result ((e : Entry) → In e (map file_entry_of files.now) → e.path ≢ path.now) }
{
    match files.binary_search_by(|file| order_of(file.path.as_bytes(), path.as_bytes())) {
        Ok(i) => Some(i),
        Err(_) => None,
    }
}

// Whether the node is a file of the size of this ordinary entry.
fn is_like(recovery: &Recovery<'_>, file: &FileEntry, node: &Node) -> bool
    ensures { result ≡ is_like (recovery_of recovery.now) (file_entry_of file.now) node.now }
{
    match node {
        Node::File { size, .. } => *size == file.size && is_ordinary(recovery, file),
        Node::Folder | Node::Link | Node::Other => false,
    }
}

// The candidate that a node is.
fn candidate_of<'a>(
    recovery: &Recovery<'_>,
    files: &'a [FileEntry],
    node: &FolderEntry,
) -> Option<Candidate<'a>>
    requires { are_in_order (map (λ e. e.path) (map file_entry_of files.now)) ≡ true }
    ensures some { IfSome result (λ c. IsCandidateFor recovery.now files.now node.now c) }
    ensures none { IfNone result (IsNoCandidate recovery.now files.now node.now) }
{
    let place = match place_of(files, &node.path) {
        Some(place) => place,
        None => return None,
    };
    let file = &files[place];
    if !is_like(recovery, file, &node.node) {
        return None;
    }
    Some(Candidate { place, file })
}

// Adds the candidate that a node is, where it is one.
fn add_candidate<'a>(
    recovery: &Recovery<'_>,
    files: &'a [FileEntry],
    node: &FolderEntry,
    found: &mut Vec<Candidate<'a>>,
) -> Result<(), AllocError>
    requires { are_in_order (map (λ e. e.path) (map file_entry_of files.now)) ≡ true }
    ensures { OnOk result (AddsCandidateFor recovery.now files.now node.now found.old.items found.new.items) }
{
    match candidate_of(recovery, files, node) {
        Some(candidate) => {
            found.push(candidate)?;
            Ok(())
        }
        None => Ok(()),
    }
}

/// The files that a listing shows as ordinary ones of the manifest, with their sizes.
pub(crate) fn candidates<'a>(
    alloc: Global,
    recovery: &Recovery<'_>,
    files: &'a [FileEntry],
    seen: &[FolderEntry],
) -> Result<Vec<Candidate<'a>>, AllocError>
    requires { are_in_order (map (λ e. e.path) (map file_entry_of files.now)) ≡ true }
    ensures are { IfOk result (λ cs. AreCandidatesFor recovery.now files.now seen.now cs.items) }
    ensures has { IfOk result (λ cs. HasCandidatesFor recovery.now files.now seen.now cs.items) }
{
    let mut found = Vec::new(alloc);
    for node in seen {
        add_candidate(recovery, files, node, &mut found)?;
    }
    Ok(found)
}
