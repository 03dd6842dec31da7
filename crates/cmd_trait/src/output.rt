// Writes the output.
ghost use Rattle.std.specs.Prelude.{◌≡◌, ◌≤◌, map, string_bytes, OnOk, OnErr};
ghost use Rattle.base_devices.specs.Cause.{HasCause};
ghost use Rattle.cmd_trait.specs.Ends.{status, ending_of};
ghost use Rattle.cmd_trait.specs.Output.{IsPrefixWritten, IsWritten, PrintsLines, Reports};

use crate::command::Command;
use crate::fault::Fault;
use crate::lines::{lines_of, status};
use base_devices::{DeviceError, OutputStream};
use base_text::NoMemory;
use cmd_types::Outcome;
use std::alloc::Global;

// Reported where there is no memory for another line.
const OUT_OF_MEMORY: &[u8] = b"ERROR: [090]: out of memory\n";

// The status of a command whose lines were written.
fn status_at_end<'b, X: Command<'b>>(command: &X, ended: &Result<Outcome, Fault<X::Fault>>) -> u8
    ensures { result ≡ status (X.meaning command.now) (ending_of ended.now) }
{
    match ended {
        Ok(Outcome::Finished { .. }) => 0,
        Ok(Outcome::FindingsFound { .. }) => 65,
        Ok(Outcome::Absent { .. }) => 1,
        Err(fault) => status(command, fault),
    }
}

/// Writes what is reported about a command, and returns the status: another one where the output fails or memory runs
/// out.
pub(crate) fn answer<'b, X: Command<'b>, O: OutputStream>(
    alloc: Global,
    out: &mut O,
    command: &X,
    unknown: &[String],
    ended: Result<Outcome, Fault<X::Fault>>,
) -> u8
    ensures known { Reports (X.meaning command.now) unknown.now ended (O.state out.old) (O.state out.new) result }
    ensures later { (O.state out.old).faults ≤ (O.state out.new).faults }
{
    let status = status_at_end(command, &ended);
    let lines = lines_of(alloc, command, unknown, &ended);
    drop(ended);
    print(out, lines, status)
}

/// Writes the lines and returns their status, or another one: 87 where the output fails, and 90 where memory ran out,
/// already for the lines too.
pub fn print<O: OutputStream>(out: &mut O, lines: Result<Vec<u8>, NoMemory>, status: u8) -> u8
    ensures known { PrintsLines lines status (O.state out.old) (O.state out.new) result }
    ensures later { (O.state out.old).faults ≤ (O.state out.new).faults }
{
    match lines {
        Ok(text) => match write_all(out, &text) {
            Ok(()) => status,
            Err(DeviceError::Failed) => 87,
            Err(DeviceError::NoMemory) => 90,
        },
        Err(_) => match write_all(out, OUT_OF_MEMORY) {
            Ok(()) => 90,
            Err(DeviceError::Failed) => 87,
            Err(DeviceError::NoMemory) => 90,
        },
    }
}

// Writes all of the bytes, or a first part of them where the sink stops.
fn write_all<O: OutputStream>(out: &mut O, bytes: &[u8]) -> Result<(), DeviceError>
    ensures ok { OnOk result (IsWritten bytes.now (O.state out.old) (O.state out.new)) }
    ensures err { OnErr result (IsPrefixWritten (O.state out.old).written bytes.now (O.state out.new).written) }
    ensures cause { HasCause (O.state out.old).faults (O.state out.new).faults result }
{
    let mut at = 0usize;
    while at < bytes.len() {
        let taken = out.write(&bytes[at..])?;
        if taken == 0 {
            return Err(DeviceError::Failed);
        }
        at += taken;
    }
    Ok(())
}
