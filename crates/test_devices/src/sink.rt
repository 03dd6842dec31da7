// Tests of an output in memory.
use crate::same::{same, well};
use base_devices::{DeviceError, OutputStream};
use memory_devices::MemOutput;

fn write_all<S: OutputStream>(sink: &mut S, pieces: &[&str]) -> Result<usize, DeviceError> {
    let mut taken = 0;
    for piece in pieces {
        taken = sink.write(piece.as_bytes())?;
    }
    Ok(taken)
}

#[test]
fn writes(rt: HostRuntime) {
    let alloc = rt.alloc();
    let mut sink = MemOutput::new(alloc, well(&rt, vec![in alloc; 2]));
    same(&rt, write_all(&mut sink, &["one ", ""]), Ok(0));
    same(
        &rt,
        write_all(&mut sink, &["lost"]),
        Err(DeviceError::Failed),
    );
    same(&rt, sink.faults(), 1);
    same(&rt, write_all(&mut sink, &["two"]), Ok(3));
    same(&rt, sink.written(), b"one two".as_slice());
    same(&rt, sink.faults(), 1);
}
