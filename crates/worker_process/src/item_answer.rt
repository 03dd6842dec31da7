// Answers an item of a job.
ghost use Rattle.std.specs.Prelude.{◌≡◌, ◌<◌, ◌≤◌, ◌+◌, ◌-◌, ◌^◌, ◌⊎◌, ◌++◌, [], ◌∷◌, true, Some, length, take, drop, string_bytes, IfOk, IfErr, IfSome, IsErrOf};
ghost use Rattle.sha1.specs.Sha1.{Holds};
ghost use Rattle.base_devices.specs.Cause.{Rises};
ghost use Rattle.base_model.specs.Text.{Text};
ghost use Rattle.worker_process.specs.declared.serve_fault.ServeFault.TheVariants.{OutputStream as OutputFailed};
ghost use Rattle.worker_protocol.specs.Frames.{part_size};
ghost use Rattle.worker_protocol.specs.Frames.Frame.{End};
ghost use Rattle.worker_protocol.specs.Views.{item_of};
ghost use Rattle.worker_protocol.specs.Replies.{payload};
ghost use Rattle.worker_process.specs.Answers.{Shows, KnownItem, KnownAbsent, KnownUnread};
ghost use Rattle.worker_process.specs.Parts.{WritesPart, ItemAnswered};
ghost use Rattle.worker_process.specs.Writing.{IsOutputFault};

use crate::frame_output::{HEAD_SIZE, PART_SIZE, tell, tell_part};
use crate::parts::{fill_part, next_part};
use crate::serve_fault::ServeFault;
use base_devices::{DeviceError, Files, OutputStream};
use base_text::Sum;
use sha1::Sha1;
use std::alloc::Global;
use worker_protocol::{Frame, Item, JobKind, Root};

/// Reports that an item can't be read, which ends the reply.
pub(crate) fn tell_unread<O: OutputStream>(alloc: Global, out: &mut O) -> Result<bool, ServeFault>
    ensures known { KnownUnread result (O.state out.old).written (O.state out.new).written }
    ensures sink { IsErrOf result OutputFailed → Rises (O.state out.old).faults (O.state out.new).faults }
    ensures later { (O.state out.old).faults ≤ (O.state out.new).faults }
    ensures only { IfErr result IsOutputFault }
{
    tell(alloc, out, &Frame::Unread)?;
    Ok(false)
}

// Reports that an item's file is absent. After one of the repository the reply has ended.
fn tell_absent<O: OutputStream>(alloc: Global, out: &mut O, root: Root) -> Result<bool, ServeFault>
    ensures known { KnownAbsent root result (O.state out.old).written (O.state out.new).written }
    ensures sink { IsErrOf result OutputFailed → Rises (O.state out.old).faults (O.state out.new).faults }
    ensures later { (O.state out.old).faults ≤ (O.state out.new).faults }
    ensures only { IfErr result IsOutputFault }
{
    match root {
        Root::DataFolder => {
            tell(alloc, out, &Frame::Vanished)?;
            Ok(true)
        }
        Root::Repo => tell_unread(alloc, out),
    }
}

// Sends a part, where bytes are asked for.
fn tell_bytes<O: OutputStream>(
    out: &mut O,
    kind: JobKind,
    room: &mut [u8],
    count: usize,
) -> Result<(), ServeFault>
    requires room { length room.old ≡ 32773 }
    requires count { count ≤ 32768 }
    ensures writes { WritesPart result kind count room.old (O.state out.old) (O.state out.new) }
    ensures room { length room.new ≡ length room.old }
    ensures sink { IsErrOf result OutputFailed → Rises (O.state out.old).faults (O.state out.new).faults }
    ensures later { (O.state out.old).faults ≤ (O.state out.new).faults }
    ensures only { IfErr result IsOutputFault }
{
    match kind {
        JobKind::Read => tell_part(out, room, count),
        JobKind::Digest => Ok(()),
    }
}

// Reports the end of an item's bytes.
fn tell_end<O: OutputStream>(
    alloc: Global,
    out: &mut O,
    length: u64,
    sum: Sum,
) -> Result<bool, ServeFault>
    ensures known { Shows (End length sum.0 ∷ []) true result (O.state out.old).written (O.state out.new).written }
    ensures sink { IsErrOf result OutputFailed → Rises (O.state out.old).faults (O.state out.new).faults }
    ensures later { (O.state out.old).faults ≤ (O.state out.new).faults }
    ensures only { IfErr result IsOutputFault }
{
    tell(alloc, out, &Frame::End { length, sum })?;
    Ok(true)
}

// Adds the part after the room for its head.
fn hash_part(digest: &mut Sha1, room: &[u8], count: usize)
    requires room { length room.now ≡ 32773 }
    requires count { count ≤ 32768 }
    ensures { (m : Text) → Holds digest.old m → Holds digest.new (m ++ take count (drop 5 room.now)) }
{
    digest.update(&room[HEAD_SIZE..HEAD_SIZE + count]);
}

// Answers an item whose first part comes after the room for its head: the parts, where they are asked for, and the
// end.
fn answer_bytes<O: OutputStream, F: Files>(
    alloc: Global,
    out: &mut O,
    files: &mut F,
    kind: JobKind,
    item: &Item,
    room: &mut [u8],
    first: usize,
) -> Result<bool, ServeFault>
    requires room { length room.old ≡ 32773 }
    requires first { (first ≤ 32768) × (first ≤ item.now.size) }
    requires within { item.now.at + first < 2 ^ 64 }
    ensures known { IfSome (F.files files.old) (λ f. (bytes : Text) → f (string_bytes item.now.path) ≡ Some bytes
        → take first (drop 5 room.old) ≡ take part_size (payload (item_of item.now) bytes)
        → KnownItem kind (item_of item.now) (Some bytes) (Rises (F.faults files.old) (F.faults files.new)) result
        (O.state out.old).written (O.state out.new).written) }
    ensures room { length room.new ≡ length room.old }
    ensures files { F.files files.new ≡ F.files files.old }
    ensures place { F.place files.new ≡ F.place files.old }
    ensures failed { F.faults files.old ≤ F.faults files.new }
    ensures sink { IsErrOf result OutputFailed → Rises (O.state out.old).faults (O.state out.new).faults }
    ensures later { (O.state out.old).faults ≤ (O.state out.new).faults }
    ensures only { IfErr result IsOutputFault }
{
    let mut digest = Sha1::new();
    let mut known = 0u64;
    let mut count = first;
    while 0 < count {
        hash_part(&mut digest, room, count);
        tell_bytes(out, kind, room, count)?;
        known += count as u64;
        count = match next_part(files, item, known, count, room) {
            Ok(next) => next,
            Err(DeviceError::Failed) => return tell_unread(alloc, out),
            Err(DeviceError::NoMemory) => return Err(ServeFault::NoMemory),
        };
    }
    let sum = Sum(digest.finalize());
    tell_end(alloc, out, known, sum)
}

/// Answers an item of a root that was opened, and returns whether the reply continues after it.
pub(crate) fn answer_item<O: OutputStream, F: Files>(
    alloc: Global,
    out: &mut O,
    files: &mut F,
    kind: JobKind,
    item: &Item,
    room: &mut [u8],
) -> Result<bool, ServeFault>
    requires room { length room.old ≡ 32773 }
    ensures known { ItemAnswered result F.files F.faults O.state kind item.now files.old out.old files.new out.new }
    ensures room { length room.new ≡ length room.old }
    ensures files { F.files files.new ≡ F.files files.old }
    ensures place { F.place files.new ≡ F.place files.old }
    ensures failed { F.faults files.old ≤ F.faults files.new }
    ensures sink { IsErrOf result OutputFailed → Rises (O.state out.old).faults (O.state out.new).faults }
    ensures later { (O.state out.old).faults ≤ (O.state out.new).faults }
    ensures only { IfErr result IsOutputFault }
{
    // A place is a `u64`.
    let _at = item.at;
    match fill_part(files, item, 0, room) {
        Ok(Some(first)) => answer_bytes(alloc, out, files, kind, item, room, first),
        Ok(None) => tell_absent(alloc, out, item.root),
        Err(DeviceError::Failed) => tell_unread(alloc, out),
        Err(DeviceError::NoMemory) => Err(ServeFault::NoMemory),
    }
}
