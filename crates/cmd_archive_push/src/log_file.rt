// Opens a file of the log: its first bytes, and how many it has.
ghost use Rattle.std.specs.Prelude.{◌≡◌, ◌⊎◌, ◌≤◌, ◌<◌, Decides, min, length, IfOk, IfErr, IfSome, IfNone};
ghost use Rattle.std.proofs.Common.{refl, ap, ◌∙◌};
ghost use Rattle.base_devices.specs.States.{OnlyReads, OnlyReadsFolder};
ghost use Rattle.base_devices.specs.DataFolder.{known_path};
ghost use Rattle.base_devices.specs.Cause.{HasCause};
ghost use Rattle.cmd_archive_push.specs.LogFile.{known_file, IsOpened, IsMeasured};
ghost use Rattle.cmd_archive_push.specs.WalPath.{wal_path};
ghost use Rattle.cmd_archive_push.specs.WalCause.{OpenEnds};

use crate::fault::PushFault;
use archive_store::{ByteSource, Prefix};
use base_devices::{DataFolder, DeviceError, ReadableFile};
use cmd_types::{Halt, Object, halted, read_prefix};
use std::alloc::Global;

// This many bytes are read at first.
const PREFIX: usize = 65_536;

/// A file of the log, with its first bytes and the number of all.
#[derive(Drop)]
pub struct LogFile {
    what: ReadableFile,
    prefix: Vec<u8>,
    length: u64,
}

/// What is seen of a file.
#[derive(Drop)]
pub(crate) enum Measured {
    File(LogFile),
    Absent,
    /// It has more bytes than the limit.
    Long,
}

// Looks at a file: at its first bytes and at their number, which may be at most the limit.
fn measure<T: DataFolder>(
    alloc: Global,
    tree: &mut T,
    what: ReadableFile,
    limit: u64,
) -> Result<Measured, DeviceError>
    requires { 65536 ≤ limit }
    ensures measured { IfOk result (IsMeasured (T.state tree.old).nodes (known_path what) limit) }
    ensures looks { OnlyReadsFolder (T.state tree.old) (T.state tree.new) }
    ensures cause { HasCause (T.state tree.old).faults (T.state tree.new).faults result }
{
    let Some(prefix) = read_prefix(alloc, tree, &what, PREFIX)? else {
        return Ok(Measured::Absent);
    };
    let read = prefix.len() as u64;
    if prefix.len() < PREFIX {
        return Ok(Measured::File(LogFile {
            what,
            prefix,
            length: read,
        }));
    }
    match tree.size(&what)? {
        Some(size) if size > limit => Ok(Measured::Long),
        // A file that shrinks meanwhile has the bytes that were read, so that the next read shows it.
        Some(size) => Ok(Measured::File(LogFile {
            what,
            prefix,
            length: size.max(read),
        })),
        None => Ok(Measured::Absent),
    }
}

/// Opens the file of this name, which may have at most as many bytes as the limit.
pub fn open_log_file<T: DataFolder>(
    alloc: Global,
    tree: &mut T,
    path: &str,
    name: &str,
    limit: u64,
) -> Result<LogFile, Halt<PushFault>>
    requires { 65536 ≤ limit }
    ensures opened { IfOk result (IsOpened (T.state tree.old).nodes (wal_path name.now)) }
    ensures cause { IfErr result (OpenEnds path.now name.now limit (T.state tree.old) (T.state tree.new)) }
    ensures looks { OnlyReadsFolder (T.state tree.old) (T.state tree.new) }
{
    let what = ReadableFile::Wal(String::from_str(alloc, name)?);
    match measure(alloc, tree, what, limit) {
        Ok(Measured::File(log)) => Ok(log),
        Ok(Measured::Absent) => Err(Halt::Refused(PushFault::SegmentMissing {
            path: String::from_str(alloc, path)?,
        })),
        Ok(Measured::Long) => Err(Halt::Refused(PushFault::TooLong {
            name: format!(in alloc; "pg_wal/{name}")?,
            limit,
        })),
        Err(error) => Err(halted(Object::TheDataFolder, error)),
    }
}

impl LogFile {
    /// Its first bytes, and how many it has.
    pub fn prefix(&self) -> Prefix<'_>
        ensures bytes { result.bytes.now ≡ self.now.prefix.items }
        ensures length { result.length ≡ self.now.length }
    {
        Prefix {
            bytes: &self.prefix,
            length: self.length,
        }
    }
}

impl<T: DataFolder> ByteSource<T> for LogFile {
    ghost bytes = { λ it tree. known_file (T.state tree).nodes (known_path it.what) };

    ghost faults = { λ tree. (T.state tree).faults };

    ghost same = { λ one other. ((T.state other).nodes ≡ (T.state one).nodes)
        × ((T.state other).faulty_calls ≡ (T.state one).faulty_calls) × ((T.state other).opened ≡ (T.state one).opened) };

    ghost same_self = { λ one. (refl, refl, refl) };

    ghost same_then = { λ one two three first second.
        (second.0 ∙ first.0, second.1 ∙ first.1, second.2 ∙ first.2) };

    ghost bytes_stay = { λ it one other same. ap (λ o. known_file o (known_path it.what)) same.0 };

    fn read(&self, holder: &mut T, at: u64, buf: &mut [u8]) -> Result<usize, DeviceError> {
        match holder.read(&self.what, at, buf)? {
            Some(n) => Ok(n),
            None => Ok(0),
        }
    }
}
