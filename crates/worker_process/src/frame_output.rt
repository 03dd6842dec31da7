// Writes frames to the parent.
ghost use Rattle.std.specs.Prelude.{◌≡◌, ◌<◌, ◌≤◌, ◌⊎◌, [], ◌∷◌, length, IsErrOf, IfErr};
ghost use Rattle.base_devices.specs.Cause.{Rises};
ghost use Rattle.worker_process.specs.declared.serve_fault.ServeFault.TheVariants.{OutputStream as OutputFailed};
ghost use Rattle.worker_protocol.specs.Frames.{FitsFrame, spell};
ghost use Rattle.worker_protocol.specs.declared.frames.frames.JobKind.TheVariants.{Read};
ghost use Rattle.worker_protocol.specs.Views.{frame_of};
ghost use Rattle.worker_process.specs.Parts.{WritesPart};
ghost use Rattle.worker_process.specs.Writing.{Adds, Writes, IsOutputFault};

use crate::serve_fault::ServeFault;
use base_devices::{DeviceError, OutputStream};
use std::alloc::Global;
use worker_protocol::{Frame, encode_frame};

/// The longest part, in bytes.
pub(crate) const PART_SIZE: usize = 32 << 10;

/// A type and a length.
pub(crate) const HEAD_SIZE: usize = 5;

// Writes all of the bytes, or a first part of them where the sink stops.
fn write_all<O: OutputStream>(out: &mut O, bytes: &[u8]) -> Result<(), ServeFault>
    ensures adds { Adds result bytes.now (O.state out.old).written (O.state out.new).written }
    ensures sink { IsErrOf result OutputFailed → Rises (O.state out.old).faults (O.state out.new).faults }
    ensures later { (O.state out.old).faults ≤ (O.state out.new).faults }
    ensures only { IfErr result IsOutputFault }
{
    let mut at = 0usize;
    while at < bytes.len() {
        let taken = match out.write(&bytes[at..]) {
            Ok(taken) => taken,
            Err(DeviceError::Failed) => return Err(ServeFault::OutputStream),
            Err(DeviceError::NoMemory) => return Err(ServeFault::NoMemory),
        };
        if taken == 0 {
            return Err(ServeFault::OutputStream);
        }
        at += taken;
    }
    Ok(())
}

/// Writes a frame that keeps the rules.
pub(crate) fn tell<O: OutputStream>(
    alloc: Global,
    out: &mut O,
    frame: &Frame,
) -> Result<(), ServeFault>
    requires { FitsFrame (frame_of frame.now) }
    ensures writes { Writes result (frame_of frame.now ∷ []) (O.state out.old).written (O.state out.new).written }
    ensures sink { IsErrOf result OutputFailed → Rises (O.state out.old).faults (O.state out.new).faults }
    ensures later { (O.state out.old).faults ≤ (O.state out.new).faults }
    ensures only { IfErr result IsOutputFault }
{
    let bytes = encode_frame(alloc, frame)?;
    write_all(out, &bytes)
}

/// Writes the part of this many bytes that comes after the room for its head.
pub(crate) fn tell_part<O: OutputStream>(
    out: &mut O,
    room: &mut [u8],
    count: usize,
) -> Result<(), ServeFault>
    requires room { length room.old ≡ 32773 }
    requires count { count ≤ 32768 }
    ensures writes { WritesPart result Read count room.old (O.state out.old) (O.state out.new) }
    ensures room { length room.new ≡ length room.old }
    ensures sink { IsErrOf result OutputFailed → Rises (O.state out.old).faults (O.state out.new).faults }
    ensures later { (O.state out.old).faults ≤ (O.state out.new).faults }
    ensures only { IfErr result IsOutputFault }
{
    let length = (count as u32).to_be_bytes();
    room[0] = b'P';
    room[1..HEAD_SIZE].copy_from_slice(&length);
    write_all(out, &room[..HEAD_SIZE + count])
}
