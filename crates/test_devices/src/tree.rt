// A data folder in memory: what its calls do, refuse and count.
use crate::same::{same, well};
use base_devices::{DataFolder, DeviceError, FolderEntry, Node, ReadableFile};
use memory_devices::{MemDataFolder, MemNode, TreeFault};
use std::alloc::{AllocError, Global};
use std::process::Abort;

// A call that changes something.
#[derive(Clone, Copy)]
enum Call {
    Make(&'static str),
    Begin(&'static str),
    // and whether it begins
    BeginNew(&'static str, bool),
    Append(&'static str),
    SetTime(&'static str, u64),
    Rename(&'static str, &'static str),
    Remove(&'static str),
    RenameSynced(&'static str, &'static str),
    RemoveSynced(&'static str),
    Sync,
}

// How a call ends, by its counts.
#[derive(Clone, Copy, Debug, PartialEq, Eq)]
enum End {
    Done,
    Fault,
    FaultyCall,
}

fn run<T: DataFolder>(tree: &mut T, call: &Call) -> Result<(), DeviceError> {
    match call {
        Call::Make(folder) => tree.make(folder),
        Call::Begin(path) => tree.begin(path),
        Call::BeginNew(path, begins) => {
            if tree.begin_new(path)? == *begins {
                Ok(())
            } else {
                Err(DeviceError::NoMemory)
            }
        }
        Call::Append(path) => tree.append(path, b"more"),
        Call::SetTime(path, time) => tree.set_time(path, *time),
        Call::Rename(from, to) => tree.rename(from, to),
        Call::Remove(path) => tree.remove(path),
        Call::RenameSynced(from, to) => tree.rename_synced(from, to),
        Call::RemoveSynced(path) => tree.remove_synced(path),
        Call::Sync => tree.sync(),
    }
}

// A path with its file.
fn file(alloc: Global, path: &str, text: &str, time: u64) -> Result<(String, MemNode), AllocError> {
    let bytes = Vec::from_slice(alloc, text.as_bytes())?;
    Ok((
        String::from_str(alloc, path)?,
        MemNode::File { bytes, time },
    ))
}

fn folder(alloc: Global, path: &str) -> Result<(String, MemNode), AllocError> {
    Ok((String::from_str(alloc, path)?, MemNode::Folder))
}

fn link(alloc: Global, path: &str) -> Result<(String, MemNode), AllocError> {
    Ok((String::from_str(alloc, path)?, MemNode::Link))
}

// The nodes of a small data folder, in no order.
fn cluster_nodes(alloc: Global) -> Result<Vec<(String, MemNode)>, AllocError> {
    let mut nodes = Vec::new(alloc);
    nodes.push(file(alloc, "pg_wal/1", "seg", 7)?)?;
    nodes.push(folder(alloc, "pg_wal")?)?;
    nodes.push(file(alloc, "PG_VERSION", "16", 5)?)?;
    nodes.push(folder(alloc, "pg_tblspc")?)?;
    nodes.push(link(alloc, "pg_tblspc/9")?)?;
    Ok(nodes)
}

fn cluster(alloc: Global, fail: &[u64]) -> Result<MemDataFolder, TreeFault> {
    let nodes = cluster_nodes(alloc)?;
    MemDataFolder::new(alloc, nodes, Vec::from_slice(alloc, fail)?)
}

// The nodes of a tree, a line each.
fn listed<T: DataFolder>(alloc: Global, tree: &mut T) -> Result<String, DeviceError> {
    let seen = tree.list(alloc)?;
    Ok(text_of(alloc, &seen)?)
}

// Those right within a folder.
fn listed_within<T: DataFolder>(
    alloc: Global,
    tree: &mut T,
    folder: &str,
) -> Result<String, DeviceError> {
    let seen = tree.list_folder(alloc, folder)?;
    Ok(text_of(alloc, &seen)?)
}

fn text_of(alloc: Global, seen: &[FolderEntry]) -> Result<String, AllocError> {
    let mut text = String::new(alloc);
    for seen in seen {
        text.push_str(&seen.path)?;
        match &seen.node {
            Node::File { size, time } => write!(text, " {size} bytes at {time}\n")?,
            Node::Folder => text.push_str("/\n")?,
            Node::Link => text.push_str(" link\n")?,
            Node::Other => text.push_str(" other\n")?,
        }
    }
    Ok(text)
}

// Whether a known file is read whole as this text, or is absent.
fn reads<T: DataFolder>(
    tree: &mut T,
    what: &ReadableFile,
    want: Option<&str>,
) -> Result<bool, DeviceError> {
    let mut buf = [0; 8];
    match (tree.read(what, 0, &mut buf)?, want) {
        (Some(count), Some(text)) => Ok(count <= 8 && &buf[..count] == text.as_bytes()),
        (None, None) => Ok(true),
        _ => Ok(false),
    }
}

fn check_call(rt: &impl Abort, tree: &mut MemDataFolder, call: Call, end: End) {
    let (faults, faulty_calls) = (tree.faults(), tree.faulty_calls());
    let answer = run(tree, &call);
    let want = if end == End::Done {
        Ok(())
    } else {
        Err(DeviceError::Failed)
    };
    same(rt, answer, want);
    let ended = if tree.faulty_calls() > faulty_calls {
        End::FaultyCall
    } else if tree.faults() > faults {
        End::Fault
    } else {
        End::Done
    };
    same(rt, ended, end);
}

fn check_makes_and_begins(rt: &impl Abort, tree: &mut MemDataFolder) {
    check_call(rt, tree, Call::Make("base"), End::Done);
    check_call(rt, tree, Call::Make("base"), End::Done);
    check_call(rt, tree, Call::Make("base/1/2"), End::FaultyCall);
    check_call(rt, tree, Call::Make("PG_VERSION"), End::Fault);
    check_call(rt, tree, Call::Make("PG_VERSION/x"), End::FaultyCall);
    check_call(rt, tree, Call::Begin("base/new"), End::Done);
    check_call(rt, tree, Call::Begin("base"), End::Fault);
    check_call(rt, tree, Call::Begin("pg_tblspc/9"), End::Fault);
    check_call(rt, tree, Call::Begin("none/x"), End::FaultyCall);
    check_call(rt, tree, Call::BeginNew("base/new", false), End::Done);
    check_call(rt, tree, Call::BeginNew("base/alone", true), End::Done);
    check_call(rt, tree, Call::BeginNew("base/alone", false), End::Done);
    check_call(rt, tree, Call::BeginNew("base", false), End::Done);
    check_call(rt, tree, Call::BeginNew("pg_tblspc/9", false), End::Done);
    check_call(rt, tree, Call::BeginNew("none/x", false), End::FaultyCall);
}

fn check_other_calls(rt: &impl Abort, tree: &mut MemDataFolder) {
    check_call(rt, tree, Call::Append("base/new"), End::Done);
    check_call(rt, tree, Call::Append("PG_VERSION"), End::Done);
    check_call(rt, tree, Call::Append("base"), End::FaultyCall);
    check_call(rt, tree, Call::Append("base/none"), End::FaultyCall);
    check_call(rt, tree, Call::SetTime("base/new", 9), End::Done);
    check_call(rt, tree, Call::SetTime("base", 9), End::FaultyCall);
    check_call(rt, tree, Call::SetTime("base/none", 9), End::FaultyCall);
    check_call(rt, tree, Call::SetTime("pg_tblspc/9", 9), End::FaultyCall);
    check_call(rt, tree, Call::Rename("base/new", "base/old"), End::Done);
    check_call(
        rt,
        tree,
        Call::Rename("base/new", "base/old"),
        End::FaultyCall,
    );
    check_call(
        rt,
        tree,
        Call::Rename("pg_tblspc/9", "link"),
        End::FaultyCall,
    );
    check_call(
        rt,
        tree,
        Call::Rename("base/old", "none/x"),
        End::FaultyCall,
    );
    check_call(rt, tree, Call::Rename("base/old", "pg_wal"), End::Fault);
    check_call(
        rt,
        tree,
        Call::Rename("PG_VERSION", "pg_tblspc/9"),
        End::Done,
    );
    check_call(
        rt,
        tree,
        Call::RenameSynced("base/none", "base/x"),
        End::FaultyCall,
    );
    check_call(
        rt,
        tree,
        Call::RenameSynced("base/old", "base/x"),
        End::Done,
    );
    check_call(
        rt,
        tree,
        Call::RenameSynced("base/x", "base/old"),
        End::Done,
    );
    check_call(rt, tree, Call::Sync, End::Done);
    check_call(rt, tree, Call::RemoveSynced("base"), End::FaultyCall);
    check_call(rt, tree, Call::Remove("base"), End::FaultyCall);
    check_call(rt, tree, Call::Remove("pg_wal/1"), End::Done);
    check_call(rt, tree, Call::RemoveSynced("pg_wal"), End::Done);
    check_call(rt, tree, Call::Remove("pg_wal"), End::Done);
}

const LEFT: &str = "base/
base/alone 0 bytes at 0
base/old 4 bytes at 9
pg_tblspc/
pg_tblspc/9 6 bytes at 5
";

fn check_listed(rt: &impl Abort, alloc: Global, tree: &mut MemDataFolder, want: &str) {
    same(rt, well(rt, listed(alloc, tree)).as_str(), want);
}

#[test]
fn calls_of_a_tree(rt: HostRuntime) {
    let mut tree = well(&rt, cluster(rt.alloc(), &[]));
    check_makes_and_begins(&rt, &mut tree);
    check_other_calls(&rt, &mut tree);
    check_listed(&rt, rt.alloc(), &mut tree, LEFT);
}

// A folder, and what is listed right within it.
const FOLDERS: &[(&str, &str)] = &[
    ("pg_wal", "pg_wal/1 3 bytes at 7\n"),
    ("pg_tblspc", "pg_tblspc/9 link\n"),
    ("base", "base/1/\nbase/2 0 bytes at 0\n"),
    ("base/1", "base/1/f 0 bytes at 0\n"),
    ("pg", ""),
    ("PG_VERSION", ""),
    ("none", ""),
    ("", ""),
];

const FILLED: &[Call] = &[
    Call::Make("base"),
    Call::Begin("base/2"),
    Call::Make("base/1"),
    Call::Begin("base/1/f"),
];

#[test]
fn folders_of_a_tree(rt: HostRuntime) {
    let alloc = rt.alloc();
    let mut tree = well(&rt, cluster(alloc, &[]));
    for call in FILLED {
        same(&rt, run(&mut tree, call), Ok(()));
    }
    for (folder, want) in FOLDERS {
        let seen = well(&rt, listed_within(alloc, &mut tree, folder));
        same(&rt, seen.as_str(), *want);
    }
}

// A file of the log.
fn check_segment(
    rt: &impl Abort,
    alloc: Global,
    tree: &mut MemDataFolder,
    name: &str,
    want: Option<&str>,
) {
    let segment = ReadableFile::Wal(well(rt, String::from_str(alloc, name)));
    same(rt, reads(tree, &segment, want), Ok(true));
}

#[test]
fn reads_of_a_tree(rt: HostRuntime) {
    let mut tree = well(&rt, cluster(rt.alloc(), &[]));
    same(
        &rt,
        reads(&mut tree, &ReadableFile::Version, Some("16")),
        Ok(true),
    );
    check_segment(&rt, rt.alloc(), &mut tree, "1", Some("seg"));
    check_segment(&rt, rt.alloc(), &mut tree, "2", None);
    same(
        &rt,
        reads(&mut tree, &ReadableFile::Control, None),
        Ok(true),
    );
    assert!(rt; matches!(tree.node("pg_wal/1"), Some(MemNode::File { time: 7, .. })));
    assert!(rt; matches!(tree.node("pg_tblspc/9"), Some(MemNode::Link)));
    assert!(rt; tree.node("base").is_none());
    same(&rt, tree.place(), "");
    same(&rt, tree.open("/srv/data"), Ok(()));
    same(&rt, tree.place(), "/srv/data");
}

#[test]
fn sizes_in_a_tree(rt: HostRuntime) {
    let mut tree = well(&rt, cluster(rt.alloc(), &[2]));
    same(&rt, tree.size(&ReadableFile::Version), Ok(Some(2)));
    same(&rt, tree.size(&ReadableFile::Control), Ok(None));
    same(
        &rt,
        tree.size(&ReadableFile::Version),
        Err(DeviceError::Failed),
    );
    same(&rt, tree.size(&ReadableFile::Version), Ok(Some(2)));
}

// The second call on a tree fails and changes nothing, and the same call after it does.
fn check_failing(rt: &impl Abort, alloc: Global, call: Call) {
    let mut tree = well(rt, cluster(alloc, &[1]));
    let before = well(rt, listed(alloc, &mut tree));
    same(rt, run(&mut tree, &call), Err(DeviceError::Failed));
    check_listed(rt, alloc, &mut tree, &before);
    same(rt, tree.faults(), 1);
    same(rt, tree.faulty_calls(), 0);
    same(rt, run(&mut tree, &call), Ok(()));
    let after = well(rt, listed(alloc, &mut tree));
    same(rt, after.as_str() == before.as_str(), false);
}

#[test]
fn each_call_of_a_tree_fails(rt: HostRuntime) {
    let alloc = rt.alloc();
    check_failing(&rt, alloc, Call::Make("base"));
    check_failing(&rt, alloc, Call::Begin("pg_wal/1"));
    check_failing(&rt, alloc, Call::BeginNew("pg_wal/2", true));
    check_failing(&rt, alloc, Call::Append("PG_VERSION"));
    check_failing(&rt, alloc, Call::SetTime("PG_VERSION", 9));
    check_failing(&rt, alloc, Call::Rename("PG_VERSION", "pg_wal/1"));
    check_failing(&rt, alloc, Call::Remove("pg_wal/1"));
    check_failing(&rt, alloc, Call::RenameSynced("PG_VERSION", "pg_wal/1"));
    check_failing(&rt, alloc, Call::RemoveSynced("pg_wal/1"));
}

#[test]
fn other_calls_of_a_tree_fail(rt: HostRuntime) {
    let mut tree = well(&rt, cluster(rt.alloc(), &[0, 1, 2, 3]));
    same(&rt, tree.open("data"), Err(DeviceError::Failed));
    assert!(rt; listed(rt.alloc(), &mut tree).is_err());
    assert!(rt; listed_within(rt.alloc(), &mut tree, "base").is_err());
    same(
        &rt,
        reads(&mut tree, &ReadableFile::Version, None),
        Err(DeviceError::Failed),
    );
    same(&rt, tree.place(), "");
}

// The path whose folder isn't there.
fn lost_path(made: Result<MemDataFolder, TreeFault>) -> Option<String> {
    match made {
        Ok(_tree) => None,
        Err(TreeFault::NoFolder { path }) => Some(path),
        Err(TreeFault::NoMemory) => None,
    }
}

fn lost_nodes(alloc: Global) -> Result<Vec<(String, MemNode)>, AllocError> {
    Ok(vec![in alloc; folder(alloc, "a/b/c")?, folder(alloc, "a")?]?)
}

#[test]
fn lost_folder(rt: HostRuntime) {
    let nodes = well(&rt, lost_nodes(rt.alloc()));
    let lost = lost_path(MemDataFolder::new(rt.alloc(), nodes, Vec::new(rt.alloc())));
    same(&rt, lost.as_deref(), Some("a/b/c"));
}
