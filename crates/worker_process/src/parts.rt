// Reads the parts of an item.
ghost use Rattle.std.specs.Prelude.{◌≡◌, ◌<◌, ◌≤◌, ◌+◌, ◌-◌, ◌^◌, min, take, length, IfOk, IfSome};
ghost use Rattle.base_devices.specs.Cause.{HasCause};
ghost use Rattle.worker_process.specs.Answers.{Fills};
ghost use Rattle.worker_process.specs.Parts.{ReadsOn, FillsPartOf, IsNextPartOf};

use crate::frame_output::{HEAD_SIZE, PART_SIZE};
use base_devices::{DeviceError, Files};
use worker_protocol::Item;

// Reads bytes after those that the buffer has. A file that disappeared meanwhile has ended.
fn read_on<F: Files>(
    files: &mut F,
    name: &str,
    at: u64,
    have: usize,
    buf: &mut [u8],
) -> Result<usize, DeviceError>
    requires have { have ≤ length buf.old }
    requires within { at + have < 2 ^ 64 }
    ensures bytes { IfOk result (ReadsOn (F.files files.old) name.now at have buf.old buf.new) }
    ensures prefix { take have buf.new ≡ take have buf.old }
    ensures length { length buf.new ≡ length buf.old }
    ensures room { IfOk result (λ n. n ≤ length buf.old - have) }
    ensures within { IfOk result (λ n. at + have + n < 2 ^ 64) }
    ensures files { F.files files.new ≡ F.files files.old }
    ensures place { F.place files.new ≡ F.place files.old }
    ensures cause { HasCause (F.faults files.old) (F.faults files.new) result }
{
    match files.read(name, at + have as u64, &mut buf[have..])? {
        Some(n) => Ok(n),
        None => Ok(0),
    }
}

// Reads until the buffer is full or the file ends.
fn fill<F: Files>(
    files: &mut F,
    name: &str,
    at: u64,
    buf: &mut [u8],
) -> Result<Option<usize>, DeviceError>
    ensures known { IfOk result (λ r. IfSome (F.files files.old) (λ f. Fills (f name.now) at buf.new r)) }
    ensures length { length buf.new ≡ length buf.old }
    ensures room { IfOk result (λ r. IfSome r (λ n. n ≤ length buf.old)) }
    ensures within { IfOk result (λ r. IfSome r (λ n. at + n < 2 ^ 64)) }
    ensures files { F.files files.new ≡ F.files files.old }
    ensures place { F.place files.new ≡ F.place files.old }
    ensures cause { HasCause (F.faults files.old) (F.faults files.new) result }
{
    let Some(first) = files.read(name, at, buf)? else {
        return Ok(None);
    };
    let mut have = first;
    let mut last = first;
    while 0 < last && have < buf.len() {
        last = read_on(files, name, at, have, buf)?;
        have += last;
    }
    Ok(Some(have))
}

// The size of the next part, where this many bytes are left.
fn part_size(left: u64) -> usize
    ensures { result ≡ min left 32768 }
{
    if left < PART_SIZE as u64 {
        left as usize
    } else {
        PART_SIZE
    }
}

/// Reads the next part of an item, of which this many bytes were reported, after the room for its head.
pub(crate) fn fill_part<F: Files>(
    files: &mut F,
    item: &Item,
    known: u64,
    room: &mut [u8],
) -> Result<Option<usize>, DeviceError>
    requires room { length room.old ≡ 32773 }
    requires known { known ≤ item.now.size }
    requires within { item.now.at + known < 2 ^ 64 }
    ensures known { IfOk result (FillsPartOf (F.files files.old) item.now known room.new) }
    ensures length { length room.new ≡ length room.old }
    ensures room { IfOk result (λ r. IfSome r (λ n. (n ≤ 32768) × (n ≤ item.now.size - known))) }
    ensures within { IfOk result (λ r. IfSome r (λ n. item.now.at + known + n < 2 ^ 64)) }
    ensures files { F.files files.new ≡ F.files files.old }
    ensures place { F.place files.new ≡ F.place files.old }
    ensures cause { HasCause (F.faults files.old) (F.faults files.new) result }
{
    let wanted = part_size(item.size - known);
    let read = fill(
        files,
        &item.path,
        item.at + known,
        &mut room[HEAD_SIZE..HEAD_SIZE + wanted],
    )?;
    Ok(read)
}

/// Reads the part after one of this many bytes. None is after a shorter one than a part may be: a file that grows
/// meanwhile had ended.
pub(crate) fn next_part<F: Files>(
    files: &mut F,
    item: &Item,
    known: u64,
    last: usize,
    room: &mut [u8],
) -> Result<usize, DeviceError>
    requires room { length room.old ≡ 32773 }
    requires known { known ≤ item.now.size }
    requires within { item.now.at + known < 2 ^ 64 }
    ensures known { IfOk result (IsNextPartOf (F.files files.old) item.now known last room.new) }
    ensures length { length room.new ≡ length room.old }
    ensures room { IfOk result (λ n. (n ≤ 32768) × (n ≤ item.now.size - known)) }
    ensures within { IfOk result (λ n. item.now.at + known + n < 2 ^ 64) }
    ensures files { F.files files.new ≡ F.files files.old }
    ensures place { F.place files.new ≡ F.place files.old }
    ensures cause { HasCause (F.faults files.old) (F.faults files.new) result }
{
    if last < PART_SIZE || known == item.size {
        return Ok(0);
    }
    match fill_part(files, item, known, room)? {
        Some(count) => Ok(count),
        None => Ok(0),
    }
}
