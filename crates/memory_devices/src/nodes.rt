// A map of paths to nodes, in which each path's folder is there.
ghost use Rattle.std.specs.Prelude.{◌≡◌, ◌≤◌, [], Option, Some, None, length, option_map, string_bytes, true, MatchOption, IfOk, OnOk, OnErr, IfSome, is_none};
ghost use Rattle.base_devices.specs.DataFolder.{file, known_path, file_bytes, with_node, with_time, moved_node, timed_file, shown};
ghost use Rattle.memory_devices.specs.Nodes.{nodes_at, node_of, folder_of, is_file, is_folder, is_placed, takes_file, takes_folder, holds_nothing, longer_node, Rooted, IsLost, tree_at, with_longer};
ghost use Rattle.memory_devices.specs.Listed.{ListsNodes, ListsNodesWithin, ReadsKnown};
ghost use Rattle.memory_devices.specs.Replay.{unless_same};

use crate::below::{lies_below, lies_directly_in};
use crate::copy::copy_part;
use base_devices::{FolderEntry, Node, ReadableFile};
use std::alloc::{AllocError, Global};
use std::collections::BTreeMap;

/// What a tree in memory has at a path. A time is in seconds since 1970.
#[derive(Drop)]
pub enum MemNode {
    File { bytes: Vec<u8>, time: u64 },
    Folder,
    Link,
}

pub(crate) type Nodes = BTreeMap<String, MemNode>;

// What a listing shows of a node.
fn shown_node(node: &MemNode) -> Node
    ensures { result ≡ shown (node_of node.now) }
{
    match node {
        MemNode::File { bytes, time } => Node::File {
            size: bytes.len() as u64,
            time: *time,
        },
        MemNode::Folder => Node::Folder,
        MemNode::Link => Node::Link,
    }
}

/// Whether the folder that holds the path is there, as the root always is.
pub(crate) fn has_its_folder(nodes: &Nodes, path: &str) -> bool
    ensures { result ≡ is_placed (nodes_at nodes.now) path.now }
{
    match folder_before(path) {
        Some(folder) => has_folder(nodes, folder),
        None => true,
    }
}

// What comes before the last slash of a path, where it has one.
fn folder_before(path: &str) -> Option<&str>
    ensures { option_map (λ f. f.now) result ≡ folder_of path.now }
{
    match path.rsplit_once('/') {
        Some((folder, _)) => Some(folder),
        None => None,
    }
}

/// Whether a folder is there.
pub(crate) fn has_folder(nodes: &Nodes, path: &str) -> bool
    ensures { result ≡ is_folder (nodes_at nodes.now path.now) }
{
    matches!(nodes.get(path), Some(MemNode::Folder))
}

/// Whether a file is there.
pub(crate) fn has_file(nodes: &Nodes, path: &str) -> bool
    ensures { result ≡ is_file (nodes_at nodes.now path.now) }
{
    matches!(nodes.get(path), Some(MemNode::File { .. }))
}

/// Whether nothing is there.
pub(crate) fn is_free(nodes: &Nodes, path: &str) -> bool
    ensures { result ≡ is_none (nodes_at nodes.now path.now) }
{
    nodes.get(path).is_none()
}

/// Whether a file may be put there: over nothing, or over a file.
pub(crate) fn may_put_file(nodes: &Nodes, path: &str) -> bool
    ensures { result ≡ takes_file (nodes_at nodes.now path.now) }
{
    matches!(nodes.get(path), None | Some(MemNode::File { .. }))
}

/// Whether a folder may be made there: over nothing, or where it is already.
pub(crate) fn may_put_folder(nodes: &Nodes, path: &str) -> bool
    ensures { result ≡ takes_folder (nodes_at nodes.now path.now) }
{
    matches!(nodes.get(path), None | Some(MemNode::Folder))
}

/// Whether nothing lies below the path.
pub(crate) fn is_bare(nodes: &Nodes, path: &str) -> bool
    ensures { result ≡ holds_nothing path.now nodes.now }
{
    for (other, _) in nodes {
        if lies_below(other, path) {
            return false;
        }
    }
    true
}

/// Every node, in byte order of the paths.
pub(crate) fn list_nodes(alloc: Global, nodes: &Nodes) -> Result<Vec<FolderEntry>, AllocError>
    requires { Rooted (nodes_at nodes.now) }
    ensures { IfOk result (λ seen. ListsNodes (nodes_at nodes.now) seen.items) }
{
    let mut seen = Vec::new(alloc);
    for (path, node) in nodes {
        seen.push(FolderEntry {
            path: path.clone()?,
            node: shown_node(node),
        })?;
    }
    Ok(seen)
}

/// The nodes right within a folder, in byte order of the paths.
pub(crate) fn list_nodes_within(
    alloc: Global,
    nodes: &Nodes,
    folder: &str,
) -> Result<Vec<FolderEntry>, AllocError>
    ensures { IfOk result (λ seen. ListsNodesWithin folder.now (nodes_at nodes.now) seen.items) }
{
    let mut seen = Vec::new(alloc);
    for (path, node) in nodes {
        if lies_directly_in(path, folder) {
            seen.push(FolderEntry {
                path: path.clone()?,
                node: shown_node(node),
            })?;
        }
    }
    Ok(seen)
}

// The path of a known file.
fn path_of(alloc: Global, what: &ReadableFile) -> Result<String, AllocError>
    ensures { IfOk result (λ path. string_bytes path ≡ known_path what.now) }
{
    match what {
        ReadableFile::Control => String::from_str(alloc, "global/pg_control"),
        ReadableFile::Version => String::from_str(alloc, "PG_VERSION"),
        ReadableFile::Wal(name) => {
            let mut path = String::from_str(alloc, "pg_wal/")?;
            path.push_str(name)?;
            Ok(path)
        }
    }
}

/// Reads bytes of a known file from a place on.
pub(crate) fn read_known(
    alloc: Global,
    nodes: &Nodes,
    what: &ReadableFile,
    at: u64,
    buf: &mut [u8],
) -> Result<Option<usize>, AllocError>
    ensures reads { IfOk result (λ n. ReadsKnown (nodes_at nodes.now) what.now at buf.old buf.new n) }
    ensures room { IfOk result (λ n. IfSome n (λ n. n ≤ length buf.old)) }
{
    let path = path_of(alloc, what)?;
    match nodes.get(&path) {
        Some(MemNode::File { bytes, .. }) => Ok(Some(copy_part(bytes, at, buf))),
        _ => Ok(None),
    }
}

/// How many bytes a known file has.
pub(crate) fn known_size(
    alloc: Global,
    nodes: &Nodes,
    what: &ReadableFile,
) -> Result<Option<u64>, AllocError>
    ensures { IfOk result (λ n. n ≡ option_map length (file_bytes (nodes_at nodes.now (known_path what.now)))) }
{
    let path = path_of(alloc, what)?;
    match nodes.get(&path) {
        Some(MemNode::File { bytes, .. }) => Ok(Some(bytes.len() as u64)),
        _ => Ok(None),
    }
}

/// A map of these nodes, the last of each path counting.
pub(crate) fn map_of(alloc: Global, given: Vec<(String, MemNode)>) -> Result<Nodes, AllocError>
    ensures { IfOk result (λ m. nodes_at m ≡ tree_at given.items) }
{
    let mut nodes = BTreeMap::new(alloc);
    for (path, node) in given {
        put_node(alloc, &mut nodes, &path, node)?;
    }
    Ok(nodes)
}

/// The first path whose folder isn't there.
pub(crate) fn first_lost(nodes: &Nodes) -> Option<&str>
    ensures { MatchOption result (Rooted (nodes_at nodes.now)) (λ path. IsLost (nodes_at nodes.now) path.now) }
{
    for (path, _) in nodes {
        if !has_its_folder(nodes, path) {
            return Some(path);
        }
    }
    None
}

/// Puts a node at a path.
pub(crate) fn put_node(
    alloc: Global,
    nodes: &mut Nodes,
    path: &str,
    node: MemNode,
) -> Result<(), AllocError>
    ensures ok { OnOk result (nodes_at nodes.new ≡ with_node path.now (Some (node_of node)) (nodes_at nodes.old)) }
    ensures err { OnErr result (nodes_at nodes.new ≡ nodes_at nodes.old) }
{
    let key = String::from_str(alloc, path)?;
    match nodes.insert(key, node) {
        Ok(_) => Ok(()),
        Err(_) => Err(AllocError),
    }
}

/// Removes the node of a path.
pub(crate) fn take_node(nodes: &mut Nodes, path: &str)
    ensures { nodes_at nodes.new ≡ with_node path.now None (nodes_at nodes.old) }
{
    let _ = nodes.remove(path);
}

/// A file as it is begun.
pub(crate) fn empty_file(alloc: Global) -> MemNode
    ensures { node_of result ≡ file [] 0 }
{
    MemNode::File {
        bytes: Vec::new(alloc),
        time: 0,
    }
}

/// Adds bytes at the end of a file, whose time stays.
pub(crate) fn extend_file(nodes: &mut Nodes, path: &str, more: &[u8]) -> Result<(), AllocError>
    ensures ok { OnOk result (nodes_at nodes.new ≡ with_longer path.now more.now (nodes_at nodes.old)) }
    ensures err { OnErr result (nodes_at nodes.new ≡ nodes_at nodes.old) }
{
    match nodes.get_mut(path) {
        Some(node) => {
            extend_node(node, more)?;
            Ok(())
        }
        None => Ok(()),
    }
}

/// Gives a file this time.
pub(crate) fn set_file_time(nodes: &mut Nodes, path: &str, time: u64)
    ensures { nodes_at nodes.new ≡ timed_file path.now time (nodes_at nodes.old) }
{
    if let Some(node) = nodes.get_mut(path) {
        set_node_time(node, time);
    }
}

/// Moves a file to another path; its time goes along.
pub(crate) fn move_file(
    alloc: Global,
    nodes: &mut Nodes,
    from: &str,
    to: &str,
) -> Result<(), AllocError>
    requires { is_file (nodes_at nodes.old from.now) ≡ true }
    ensures ok { OnOk result (nodes_at nodes.new ≡ moved_node from.now to.now (nodes_at nodes.old)) }
    ensures err { OnErr result (nodes_at nodes.new ≡ nodes_at nodes.old) }
{
    let node = copy_file(alloc, nodes, from)?;
    put_node(alloc, nodes, to, node)?;
    take_other(nodes, from, to);
    Ok(())
}

// The file of a path that has one.
fn copy_file(alloc: Global, nodes: &Nodes, path: &str) -> Result<MemNode, AllocError>
    requires { is_file (nodes_at nodes.now path.now) ≡ true }
    ensures { IfOk result (λ node. nodes_at nodes.now path.now ≡ Some (node_of node)) }
{
    match nodes.get(path) {
        Some(MemNode::File { bytes, time }) => Ok(MemNode::File {
            bytes: bytes.to_vec(alloc)?,
            time: *time,
        }),
        _ => unreachable!(),
    }
}

// Removes the node of a path, but not where it is the other one.
fn take_other(nodes: &mut Nodes, from: &str, to: &str)
    ensures { nodes_at nodes.new ≡ unless_same from.now to.now (with_node from.now None) (nodes_at nodes.old) }
{
    if from != to {
        take_node(nodes, from);
    }
}

// Adds bytes at the end of a file.
fn extend_node(node: &mut MemNode, more: &[u8]) -> Result<(), AllocError>
    ensures ok { OnOk result (node_of node.new ≡ longer_node more.now (node_of node.old)) }
    ensures err { OnErr result (node_of node.new ≡ node_of node.old) }
{
    if let MemNode::File { bytes, .. } = node {
        bytes.extend_from_slice(more)?;
    }
    Ok(())
}

// Gives a file this time.
fn set_node_time(node: &mut MemNode, to: u64)
    ensures { Some (node_of node.new) ≡ with_time to (Some (node_of node.old)) }
{
    if let MemNode::File { time, .. } = node {
        *time = to;
    }
}
