// Arguments, or a configuration, that are refused.
ghost use Rattle.std.specs.Prelude.{◌≡◌, ◌≤◌, map, string_bytes, IfOk};
ghost use Rattle.program_run.specs.Refusals.{of_usage, usage_status, usage_message, refusal_status, refusal_message, refusal_lines};
ghost use Rattle.cmd_trait.specs.Output.{Prints};

use base_devices::OutputStream;
use base_text::NoMemory;
use cmd_trait::{Fault, error_line, print, unknown_lines};
use cmd_types::{bytes_of, object_message, object_status, quoted, stage_message, stage_status};
use options_read::Usage;
use std::alloc::Global;

/// What arguments are refused for, or a configuration.
pub(crate) fn of_usage(usage: Usage) -> Fault<Usage>
    ensures { result ≡ of_usage usage }
{
    match usage {
        Usage::NoMemory => Fault::NoMemory,
        usage => Fault::Own(usage),
    }
}

fn usage_status(usage: &Usage) -> u8
    ensures { result ≡ usage_status usage.now }
{
    match usage {
        Usage::CommandMissing => 2,
        Usage::CommandUnknown { .. } => 3,
        Usage::OptionUnknown { .. } => 4,
        Usage::OptionRepeated { .. } => 5,
        Usage::OptionValue { .. } => 6,
        Usage::OptionMissing { .. } => 7,
        Usage::OptionNotFor { .. } => 8,
        Usage::ConfigSyntax { .. } => 9,
        Usage::ParameterCount { .. } => 11,
        Usage::ParameterUtf8 => 13,
        Usage::NoMemory => 90,
    }
}

fn status(fault: &Fault<Usage>) -> u8
    ensures { result ≡ refusal_status fault.now }
{
    match fault {
        Fault::Stage(fault) => stage_status(fault),
        Fault::Own(usage) => usage_status(usage),
        Fault::Failed(object) => object_status(*object),
        Fault::NoMemory => 90,
    }
}

fn usage_message(alloc: Global, usage: &Usage) -> Result<Vec<u8>, NoMemory>
    ensures { IfOk result (λ text. text.items ≡ usage_message usage.now) }
{
    match usage {
        Usage::CommandMissing => bytes_of(String::from_str(alloc, "no command found")),
        Usage::CommandUnknown { word } => quoted(alloc, "unknown command '", word, "'"),
        Usage::OptionUnknown { word } => quoted(alloc, "unknown option '", word, "'"),
        Usage::OptionRepeated { name } => quoted(alloc, "option '", name, "' is repeated"),
        Usage::OptionValue { name } => quoted(alloc, "option '", name, "' has no valid value"),
        Usage::OptionMissing { name } => quoted(alloc, "option '", name, "' is missing"),
        Usage::OptionNotFor { name } => quoted(
            alloc,
            "option '",
            name,
            "' is not for this command",
        ),
        Usage::ConfigSyntax { line } => bytes_of(format!(in alloc;
            "configuration line {line} is not valid"
        )),
        Usage::ParameterCount { given } => bytes_of(format!(in alloc; "{given} parameters given")),
        Usage::ParameterUtf8 => bytes_of(String::from_str(alloc, "configuration is not UTF-8")),
        Usage::NoMemory => bytes_of(String::from_str(alloc, "out of memory")),
    }
}

fn message(alloc: Global, fault: &Fault<Usage>) -> Result<Vec<u8>, NoMemory>
    ensures { IfOk result (λ text. text.items ≡ refusal_message fault.now) }
{
    match fault {
        Fault::Stage(fault) => stage_message(alloc, fault),
        Fault::Own(usage) => usage_message(alloc, usage),
        Fault::Failed(object) => bytes_of(String::from_str(alloc, object_message(*object))),
        Fault::NoMemory => bytes_of(String::from_str(alloc, "out of memory")),
    }
}

// The warnings, and then the line of the refusal.
fn lines(alloc: Global, unknown: &[String], fault: &Fault<Usage>) -> Result<Vec<u8>, NoMemory>
    ensures { IfOk result (λ text. text.items ≡ refusal_lines (map string_bytes unknown.now) fault.now) }
{
    let mut text = unknown_lines(alloc, unknown)?;
    let message = message(alloc, fault)?;
    let end = error_line(alloc, status(fault), &message)?;
    text.extend_from_slice(&end)?;
    Ok(text)
}

/// Prints why the arguments are refused, and returns the status that the program ends with.
pub(crate) fn refuse<O: OutputStream>(
    alloc: Global,
    out: &mut O,
    unknown: &[String],
    fault: Fault<Usage>,
) -> u8
    ensures known { Prints (refusal_lines (map string_bytes unknown.now) fault) (refusal_status fault)
        (O.state out.old) (O.state out.new) result }
    ensures later { (O.state out.old).faults ≤ (O.state out.new).faults }
{
    let status = status(&fault);
    let lines = lines(alloc, unknown, &fault);
    drop(fault);
    print(out, lines, status)
}
