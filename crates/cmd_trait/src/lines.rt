// The lines that report how a command ended.
ghost use Rattle.std.specs.Prelude.{◌≡◌, ◌++◌, codes, decimal, map, IfOk, OnOk, string_bytes};
ghost use Rattle.std.specs.List.{flat_map};
ghost use Rattle.cmd_trait.specs.Ends.{digits, line_of, status_of, message_of, is_output, fault_line, lines_before, deviating_lines, absent_line, unknown_line, ending_of, ending_lines, lines_of};

use crate::command::Command;
use crate::fault::Fault;
use base_text::NoMemory;
use cmd_types::{
    Object, Outcome, bytes_of, object_message, object_status, push_shown, stage_message,
    stage_status,
};
use std::alloc::Global;

/// The status that the program ends with.
pub(crate) fn status<'b, X: Command<'b>>(command: &X, fault: &Fault<X::Fault>) -> u8
    ensures { result ≡ status_of (X.meaning command.now) fault.now }
{
    match fault {
        Fault::Stage(fault) => stage_status(fault),
        Fault::Own(fault) => command.status(fault),
        Fault::Failed(object) => object_status(*object),
        Fault::NoMemory => 90,
    }
}

fn message<'b, X: Command<'b>>(
    alloc: Global,
    command: &X,
    fault: &Fault<X::Fault>,
) -> Result<Vec<u8>, NoMemory>
    ensures { IfOk result (λ text. text.items ≡ message_of (X.meaning command.now) fault.now) }
{
    match fault {
        Fault::Stage(fault) => stage_message(alloc, fault),
        Fault::Own(fault) => command.message(alloc, fault),
        Fault::Failed(object) => bytes_of(String::from_str(alloc, object_message(*object))),
        Fault::NoMemory => bytes_of(String::from_str(alloc, "out of memory")),
    }
}

// The three digits of a status.
fn push_digits(line: &mut Vec<u8>, status: u8) -> Result<(), NoMemory>
    ensures { OnOk result (line.new.items ≡ line.old.items ++ digits status) }
{
    line.push(b'0' + status / 100)?;
    line.push(b'0' + status / 10 % 10)?;
    line.push(b'0' + status % 10)?;
    Ok(())
}

/// The line of a refusal, with its status and its message.
pub fn error_line(alloc: Global, status: u8, message: &[u8]) -> Result<Vec<u8>, NoMemory>
    ensures { IfOk result (λ line. line.items ≡ line_of status message.now) }
{
    let mut line = Vec::new(alloc);
    line.extend_from_slice("ERROR: [".as_bytes())?;
    push_digits(&mut line, status)?;
    line.extend_from_slice("]: ".as_bytes())?;
    line.extend_from_slice(message)?;
    line.extend_from_slice("\n".as_bytes())?;
    Ok(line)
}

// Whether the output failed.
fn is_output<E>(fault: &Fault<E>) -> bool
    ensures { result ≡ is_output fault.now }
{
    match fault {
        Fault::Failed(Object::Output) => true,
        _ => false,
    }
}

// The line of a fault; where the output failed there is none.
fn fault_line<'b, X: Command<'b>>(
    alloc: Global,
    command: &X,
    fault: &Fault<X::Fault>,
) -> Result<Vec<u8>, NoMemory>
    ensures { IfOk result (λ line. line.items ≡ fault_line (X.meaning command.now) fault.now) }
{
    if is_output(fault) {
        return Ok(Vec::new(alloc));
    }
    let message = message(alloc, command, fault)?;
    error_line(alloc, status(command, fault), &message)
}

// The lines before that of a fault.
fn lines_before<'a, 'b, X: Command<'b>>(command: &X, fault: &'a Fault<X::Fault>) -> &'a str
    ensures { result.now ≡ lines_before (X.meaning command.now) fault.now }
{
    match fault {
        Fault::Own(fault) => command.lines(fault),
        _ => "",
    }
}

// The lines of a fault.
fn fault_lines<'b, X: Command<'b>>(
    alloc: Global,
    command: &X,
    fault: &Fault<X::Fault>,
) -> Result<Vec<u8>, NoMemory>
    ensures { IfOk result (λ text. text.items
        ≡ lines_before (X.meaning command.now) fault.now ++ fault_line (X.meaning command.now) fault.now) }
{
    let end = fault_line(alloc, command, fault)?;
    let mut text = Vec::new(alloc);
    text.extend_from_slice(lines_before(command, fault).as_bytes())?;
    text.extend_from_slice(&end)?;
    Ok(text)
}

// The lines of what deviates, and how many there are.
fn deviating_lines(alloc: Global, lines: &str, count: usize) -> Result<Vec<u8>, NoMemory>
    ensures { IfOk result (λ text. text.items ≡ deviating_lines lines.now count) }
{
    let message = format!(in alloc; "{count} findings")?;
    let end = error_line(alloc, 65, message.as_bytes())?;
    let mut text = Vec::new(alloc);
    text.extend_from_slice(lines.as_bytes())?;
    text.extend_from_slice(&end)?;
    Ok(text)
}

// What is reported where the archive has no such file.
fn absent_line(alloc: Global, name: &str) -> Result<Vec<u8>, NoMemory>
    ensures { IfOk result (λ line. line.items ≡ absent_line name.now) }
{
    bytes_of(format!(in alloc; "INFO: unable to find {name} in the archive\n"))
}

// Adds the warning of a key that is no option.
fn push_unknown(text: &mut Vec<u8>, key: &str) -> Result<(), NoMemory>
    ensures { OnOk result (text.new.items ≡ text.old.items ++ unknown_line key.now) }
{
    text.extend_from_slice("WARN: configuration file contains unknown option '".as_bytes())?;
    push_shown(text, key)?;
    text.extend_from_slice("'\n".as_bytes())?;
    Ok(())
}

/// The warnings of the configuration's keys that are no options.
pub fn unknown_lines(alloc: Global, keys: &[String]) -> Result<Vec<u8>, NoMemory>
    ensures { IfOk result (λ text. text.items ≡ flat_map unknown_line (map string_bytes keys.now)) }
{
    let mut text = Vec::new(alloc);
    for key in keys {
        push_unknown(&mut text, key)?;
    }
    Ok(text)
}

// The bytes of lines.
fn text_bytes(alloc: Global, text: &str) -> Result<Vec<u8>, NoMemory>
    ensures { IfOk result (λ bytes. bytes.items ≡ text.now) }
{
    let mut bytes = Vec::new(alloc);
    bytes.extend_from_slice(text.as_bytes())?;
    Ok(bytes)
}

// The lines of how a command ended.
fn lines_at_end<'b, X: Command<'b>>(
    alloc: Global,
    command: &X,
    ended: &Result<Outcome, Fault<X::Fault>>,
) -> Result<Vec<u8>, NoMemory>
    ensures { IfOk result (λ text. text.items ≡ ending_lines (X.meaning command.now) (ending_of ended.now)) }
{
    match ended {
        Ok(Outcome::Finished { lines }) => text_bytes(alloc, lines),
        Ok(Outcome::FindingsFound { lines, count }) => deviating_lines(alloc, lines, *count),
        Ok(Outcome::Absent { name }) => absent_line(alloc, name),
        Err(fault) => fault_lines(alloc, command, fault),
    }
}

/// All lines: the warnings, and then how the command ended.
pub(crate) fn lines_of<'b, X: Command<'b>>(
    alloc: Global,
    command: &X,
    unknown: &[String],
    ended: &Result<Outcome, Fault<X::Fault>>,
) -> Result<Vec<u8>, NoMemory>
    ensures { IfOk result (λ text. text.items
        ≡ lines_of (X.meaning command.now) (map string_bytes unknown.now) (ending_of ended.now)) }
{
    let mut text = unknown_lines(alloc, unknown)?;
    let end = lines_at_end(alloc, command, ended)?;
    text.extend_from_slice(&end)?;
    Ok(text)
}
