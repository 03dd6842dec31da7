// A file that is written as a worker reads it.
ghost use Rattle.std.specs.Prelude.{◌≡◌, ◌≤◌, ◌+◌, length, None, Some, IfOk, OnOk, IfErr, string_bytes};
ghost use Rattle.base_devices.specs.Cause.{HasCause};
ghost use Rattle.base_devices.specs.Content.{SameBut};
ghost use Rattle.base_devices.specs.DataFolder.{IsFileAt};
ghost use Rattle.restore_steps.specs.Files.{temporary_path, is_wanted, SameBeside, IsTidy, IsUnderWay, Grows, IsBegun, IsPut};
ghost use Rattle.restore_steps.specs.Trees.{ProperAt};
ghost use Rattle.restore_steps.specs.Writing.{ExtendsProperly, PutsProperly, ReceivesProperly, ReceivesBytes, ReceivesEnd};

use base_devices::{DataFolder, DeviceError};
use base_text::Sum;
use std::alloc::{AllocError, Global};
use worker_protocol::ItemEnd;

/// A file that is to be written: its path in the data folder, the number and the digest of its bytes, and its time.
#[derive(Clone, Copy, Debug)]
pub struct Wanted<'a> {
    pub path: &'a str,
    pub size: u64,
    pub sum: Sum,
    pub time: u64,
}

/// How far it is: how many bytes were received, and how its item ended.
#[derive(Clone, Copy, Debug)]
pub struct Filed<'a> {
    pub wanted: Wanted<'a>,
    pub count: u64,
    pub end: Option<ItemEnd>,
}

fn temporary_name(alloc: Global, path: &str) -> Result<String, AllocError>
    ensures { IfOk result (λ name. string_bytes name ≡ temporary_path path.now) }
{
    format!(in alloc; "{path}.pgbackrest.tmp")
}

// Begins the file before its first bytes.
fn begin_first<T: DataFolder>(tree: &mut T, name: &str, count: u64) -> Result<(), DeviceError>
    ensures begun { OnOk result (IsBegun count name.now (T.state tree.old).nodes (T.state tree.new).nodes) }
    ensures others { SameBut name.now (T.state tree.old).nodes (T.state tree.new).nodes }
    ensures proper { ProperAt name.now (T.state tree.old) (T.state tree.new) }
    ensures opened { (T.state tree.new).opened ≡ (T.state tree.old).opened }
    ensures cause { HasCause (T.state tree.old).faults (T.state tree.new).faults result }
{
    if count > 0 {
        return Ok(());
    }
    tree.begin(name)
}

// Adds bytes to the file under its temporary name, of which this many are there.
fn extend<T: DataFolder>(
    alloc: Global,
    tree: &mut T,
    path: &str,
    count: u64,
    bytes: &[u8],
) -> Result<(), DeviceError>
    ensures grows { OnOk result (Grows count path.now bytes.now (T.state tree.old).nodes (T.state tree.new).nodes) }
    ensures there { OnOk result (IsFileAt (T.state tree.new).nodes (temporary_path path.now)) }
    ensures others { SameBut (temporary_path path.now) (T.state tree.old).nodes (T.state tree.new).nodes }
    // Where the file's folder is there, and the bytes that were received lie in a file, no call is faulty.
    ensures proper { ExtendsProperly count path.now (T.state tree.old) (T.state tree.new) }
    ensures opened { (T.state tree.new).opened ≡ (T.state tree.old).opened }
    ensures cause { HasCause (T.state tree.old).faults (T.state tree.new).faults result }
{
    let name = temporary_name(alloc, path)?;
    begin_first(tree, &name, count)?;
    tree.append(&name, bytes)
}

// Gives the file its time, and then its own name.
fn put_in_place<T: DataFolder>(
    alloc: Global,
    tree: &mut T,
    path: &str,
    time: u64,
) -> Result<(), DeviceError>
    ensures put { OnOk result (IsPut path.now time (T.state tree.old).nodes (T.state tree.new).nodes) }
    ensures others { SameBeside path.now (T.state tree.old).nodes (T.state tree.new).nodes }
    ensures proper { PutsProperly path.now (T.state tree.old) (T.state tree.new) }
    ensures opened { (T.state tree.new).opened ≡ (T.state tree.old).opened }
    ensures cause { HasCause (T.state tree.old).faults (T.state tree.new).faults result }
{
    let name = temporary_name(alloc, path)?;
    tree.set_time(&name, time)?;
    tree.rename(&name, path)
}

// Takes the next bytes of a file.
pub(crate) fn add_part<T: DataFolder>(
    alloc: Global,
    tree: &mut T,
    file: &mut Filed<'_>,
    bytes: &[u8],
) -> Result<(), DeviceError>
    requires { file.old.end ≡ None }
    ensures wanted { file.new.wanted ≡ file.old.wanted }
    ensures still_open { file.new.end ≡ None }
    ensures adds { OnOk result (ReceivesBytes bytes.now file.old file.new (T.state tree.old) (T.state tree.new)) }
    ensures begun { OnOk result (IsUnderWay (T.state tree.new).nodes file.new) }
    ensures others { SameBeside file.old.wanted.path.now (T.state tree.old).nodes (T.state tree.new).nodes }
    ensures proper { ReceivesProperly file.old (T.state tree.old) (T.state tree.new) }
    ensures opened { (T.state tree.new).opened ≡ (T.state tree.old).opened }
    ensures cause { HasCause (T.state tree.old).faults (T.state tree.new).faults result }
{
    let Some(count) = file.count.checked_add(bytes.len() as u64) else {
        return Err(DeviceError::NoMemory);
    };
    extend(alloc, tree, file.wanted.path, file.count, bytes)?;
    file.count = count;
    Ok(())
}

// Whether the item's end is the expected one.
fn ends_so(wanted: &Wanted<'_>, how: &ItemEnd) -> bool
    ensures { result ≡ is_wanted wanted.now (Some how.now) }
{
    match how {
        ItemEnd::Whole { length, sum } => *length == wanted.size && *sum == wanted.sum,
        ItemEnd::Vanished => false,
    }
}

impl<'a> Filed<'a> {
    /// Whether its item ended as requested.
    pub fn is_wanted(&self) -> bool
        ensures { result ≡ is_wanted self.now.wanted self.now.end }
    {
        match &self.end {
            Some(how) => ends_so(&self.wanted, how),
            None => false,
        }
    }
}

// Ends a file: where its bytes are those that are requested, it gets its time and its own name.
pub(crate) fn end_file<T: DataFolder>(
    alloc: Global,
    tree: &mut T,
    file: &mut Filed<'_>,
    how: &ItemEnd,
) -> Result<(), DeviceError>
    requires { file.old.end ≡ None }
    ensures wanted { file.new.wanted ≡ file.old.wanted }
    ensures tidy { OnOk result (IsTidy (T.state tree.new).nodes file.new) }
    ensures ends { OnOk result (ReceivesEnd how.now file.old file.new (T.state tree.old) (T.state tree.new)) }
    ensures begun { OnOk result (IsUnderWay (T.state tree.new).nodes file.new) }
    ensures others { SameBeside file.old.wanted.path.now (T.state tree.old).nodes (T.state tree.new).nodes }
    ensures proper { ReceivesProperly file.old (T.state tree.old) (T.state tree.new) }
    ensures opened { (T.state tree.new).opened ≡ (T.state tree.old).opened }
    ensures cause { HasCause (T.state tree.old).faults (T.state tree.new).faults result }
{
    if !ends_so(&file.wanted, how) || file.count == 0 {
        file.end = Some(*how);
        return Ok(());
    }
    put_in_place(alloc, tree, file.wanted.path, file.wanted.time)?;
    file.end = Some(*how);
    Ok(())
}
