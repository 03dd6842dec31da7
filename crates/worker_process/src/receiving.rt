// Receives frames from the parent.
ghost use Rattle.std.specs.Prelude.{◌≡◌, ◌<◌, ◌≤◌, ◌+◌, ◌^◌, Some, length, vec_len, Err, OnOk, IfOk, IfErr, IfSome, IfNone, IsErrOf};
ghost use Rattle.base_devices.specs.Cause.{Rises};
ghost use Rattle.base_devices.specs.Streams.{IsOver};
ghost use Rattle.base_model.specs.Text.{Text};
ghost use Rattle.worker_process.specs.declared.serve_fault.ServeFault.TheVariants.{Read as InputFailed};
ghost use Rattle.worker_protocol.specs.declared.frames.fault.FrameFault.TheVariants as faults;
ghost use Rattle.worker_protocol.specs.Frames.{IsPrefix};
ghost use Rattle.worker_protocol.specs.Views.{frame_of};
ghost use Rattle.worker_protocol.specs.Reading.{frame_at, IsCutShort};
ghost use Rattle.worker_process.specs.Receiving.{size_known, IsInputFault, IsNotOutput, StillGives, Receives, ReceivesSetup, ReceivesJob, SaysWhetherOver, FaultAt};

use crate::frame_output::HEAD_SIZE;
use crate::serve_fault::ServeFault;
use base_devices::{DeviceError, InputFiles};
use std::alloc::Global;
use worker_protocol::{Frame, FrameFault, Job, Roots, decode_frame};

// As much is read of a frame before its fields are looked at: no setup is longer.
const FIRST_SIZE: usize = 131_079;

// The next bytes, as many as come at once and at most this many; none is the end.
fn read_some<I: InputFiles>(
    input: &mut I,
    room: &mut [u8],
    bytes: &mut Vec<u8>,
    most: usize,
) -> Result<usize, ServeFault>
    requires room { 0 < length room.old }
    requires most { 0 < most }
    ensures given { OnOk result (StillGives bytes.old.items (I.state input.old) bytes.new.items (I.state input.new)) }
    ensures count { IfOk result (λ n. (n ≤ most) × (vec_len bytes.new ≡ vec_len bytes.old + n)) }
    ensures end { IfOk result (λ n. n ≡ 0 → IsOver (I.state input.new).left) }
    ensures room { length room.new ≡ length room.old }
    ensures read { IsErrOf result InputFailed → Rises (I.state input.old).faults (I.state input.new).faults }
    ensures later { (I.state input.old).faults ≤ (I.state input.new).faults }
    ensures only { IfErr result IsInputFault }
{
    let size = if room.len() < most { room.len() } else { most };
    let count = match input.read(&mut room[..size]) {
        Ok(count) => count,
        Err(DeviceError::Failed) => return Err(ServeFault::Read),
        Err(DeviceError::NoMemory) => return Err(ServeFault::NoMemory),
    };
    bytes.extend_from_slice(&room[..count])?;
    Ok(count)
}

// Reads until this many bytes are there, or the input ends.
fn read_to<I: InputFiles>(
    input: &mut I,
    room: &mut [u8],
    bytes: &mut Vec<u8>,
    wanted: usize,
) -> Result<(), ServeFault>
    requires room { 0 < length room.old }
    requires wanted { vec_len bytes.old ≤ wanted }
    ensures given { OnOk result (StillGives bytes.old.items (I.state input.old) bytes.new.items (I.state input.new)) }
    ensures wanted { OnOk result (vec_len bytes.new ≤ wanted) }
    ensures end { OnOk result (vec_len bytes.new < wanted → IsOver (I.state input.new).left) }
    ensures room { length room.new ≡ length room.old }
    ensures read { IsErrOf result InputFailed → Rises (I.state input.old).faults (I.state input.new).faults }
    ensures later { (I.state input.old).faults ≤ (I.state input.new).faults }
    ensures only { IfErr result IsInputFault }
{
    while bytes.len() < wanted {
        let most = wanted - bytes.len();
        if read_some(input, room, bytes, most)? == 0 {
            return Ok(());
        }
    }
    Ok(())
}

// The length of a frame by its head.
fn size_known(bytes: &[u8]) -> usize
    requires { 5 ≤ length bytes.now }
    ensures value { result ≡ size_known bytes.now }
    ensures fits { result < 2 ^ 33 }
{
    let length = u32::from_be_bytes([bytes[1], bytes[2], bytes[3], bytes[4]]);
    HEAD_SIZE + length as usize
}

// How much of a frame that isn't whole is read next.
fn next_size(bytes: &[u8]) -> usize
    requires { 5 ≤ length bytes.now }
    ensures within { result ≤ size_known bytes.now }
    ensures more { length bytes.now < size_known bytes.now → length bytes.now < result }
    ensures fits { result < 2 ^ 33 }
{
    let size = size_known(bytes);
    if bytes.len() < FIRST_SIZE && FIRST_SIZE < size {
        return FIRST_SIZE;
    }
    size
}

// The frame that the bytes are, where it is whole.
fn look(alloc: Global, bytes: &[u8], start: u64) -> Result<Option<(Frame, usize)>, ServeFault>
    ensures found { IfOk result (λ r. IfSome r (λ x. IsPrefix bytes.now (frame_of x.0) x.1)) }
    ensures short { IfOk result (λ r. IfNone r ((frame_at bytes.now ≡ Err faults.Short) × IsCutShort bytes.now)) }
    ensures fault { IfErr result (FaultAt start bytes.now) }
{
    match decode_frame(alloc, bytes) {
        Ok(found) => Ok(Some(found)),
        Err(FrameFault::Short) => Ok(None),
        Err(FrameFault::Form { at }) => Err(ServeFault::Form {
            at: start.saturating_add(at),
        }),
        Err(FrameFault::TooLong { length }) => Err(ServeFault::TooLong { length }),
        Err(FrameFault::NoMemory) => Err(ServeFault::NoMemory),
    }
}

// The next frame, which is to be of this type, and its length; none where the input is over. This many bytes came
// before.
fn receive_frame<I: InputFiles>(
    alloc: Global,
    input: &mut I,
    room: &mut [u8],
    letter: u8,
    start: u64,
) -> Result<Option<(Frame, u64)>, ServeFault>
    requires { 0 < length room.old }
    ensures received_reply { (rest : Text) → (I.state input.old).left ≡ Some rest
        → Receives frame_of letter start rest result (I.state input.new).left }
    ensures room { length room.new ≡ length room.old }
    ensures read { IsErrOf result InputFailed → Rises (I.state input.old).faults (I.state input.new).faults }
    ensures later { (I.state input.old).faults ≤ (I.state input.new).faults }
    ensures only { IfErr result IsNotOutput }
{
    let mut bytes = Vec::new(alloc);
    let mut wanted = HEAD_SIZE;
    'stages: loop {
        read_to(input, room, &mut bytes, wanted)?;
        if bytes.is_empty() {
            return Ok(None);
        }
        if bytes[0] != letter {
            return Err(ServeFault::Form { at: start });
        }
        match look(alloc, &bytes, start) {
            Ok(Some((frame, _))) => return Ok(Some((frame, bytes.len() as u64))),
            Ok(None) => {}
            Err(fault) => return Err(fault),
        }
        if bytes.len() < wanted {
            return Err(ServeFault::Ended {
                at: start.saturating_add(bytes.len() as u64),
            });
        }
        wanted = next_size(&bytes);
    }
}

/// The setup, and its length; none where the input is over.
pub(crate) fn receive_setup<I: InputFiles>(
    alloc: Global,
    input: &mut I,
    room: &mut [u8],
) -> Result<Option<(Roots, u64)>, ServeFault>
    requires { 0 < length room.old }
    ensures received_reply { ReceivesSetup (I.state input.old) result (I.state input.new) }
    ensures room { length room.new ≡ length room.old }
    ensures read { IsErrOf result InputFailed → Rises (I.state input.old).faults (I.state input.new).faults }
    ensures later { (I.state input.old).faults ≤ (I.state input.new).faults }
    ensures only { IfErr result IsNotOutput }
{
    let Some((frame, size)) = receive_frame(alloc, input, room, b'S', 0)? else {
        return Ok(None);
    };
    match frame {
        Frame::Setup(roots) => Ok(Some((roots, size))),
        // A frame that begins with `S` is no other.
        _ => Err(ServeFault::Form { at: 0 }),
    }
}

/// The next job, and its length; none where the input is over. This many bytes came before.
pub(crate) fn receive_job<I: InputFiles>(
    alloc: Global,
    input: &mut I,
    room: &mut [u8],
    start: u64,
) -> Result<Option<(Job, u64)>, ServeFault>
    requires { 0 < length room.old }
    ensures received_reply { ReceivesJob start (I.state input.old) result (I.state input.new) }
    ensures room { length room.new ≡ length room.old }
    ensures read { IsErrOf result InputFailed → Rises (I.state input.old).faults (I.state input.new).faults }
    ensures later { (I.state input.old).faults ≤ (I.state input.new).faults }
    ensures only { IfErr result IsNotOutput }
{
    let Some((frame, size)) = receive_frame(alloc, input, room, b'J', start)? else {
        return Ok(None);
    };
    match frame {
        Frame::Job(job) => Ok(Some((job, size))),
        // A frame that begins with `J` is no other.
        _ => Err(ServeFault::Form { at: start }),
    }
}

/// Whether the input is over.
pub(crate) fn is_over<I: InputFiles>(
    alloc: Global,
    input: &mut I,
    room: &mut [u8],
) -> Result<bool, ServeFault>
    requires { 0 < length room.old }
    ensures over { SaysWhetherOver (I.state input.old) result }
    ensures room { length room.new ≡ length room.old }
    ensures read { IsErrOf result InputFailed → Rises (I.state input.old).faults (I.state input.new).faults }
    ensures later { (I.state input.old).faults ≤ (I.state input.new).faults }
    ensures only { IfErr result IsInputFault }
{
    let mut bytes = Vec::new(alloc);
    Ok(read_some(input, room, &mut bytes, 1)? == 0)
}
