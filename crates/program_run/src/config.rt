// The arguments and their configuration are read.
ghost use Rattle.std.specs.Prelude.{◌≡◌, ◌≤◌, ◌<◌, ◌+◌, ◌^◌, ℕ, List, Option, Result, Ok, take, length, IfOk, IfErr, IfSome, Vec};
ghost use Rattle.std.specs.declared.alloc.Global.{Global};
ghost use Rattle.base_devices.specs.Cause.{HasCause};
ghost use Rattle.program_run.specs.Asked.{config_limit};
ghost use Rattle.program_run.specs.Refusals.{of_device};
ghost use Rattle.program_run.specs.Configuring.{IsFileOf, IsConfigurationOf, IsCommandOf, NamesNone, FileReadCause, ReadingCause};

use crate::refusal::of_usage;
use base_devices::{DeviceError, InputFiles};
use cmd_trait::Fault;
use cmd_types::{Object, StageFault};
use options_read::{Command, ConfigPath, Usage, config_path, resolve_arguments};
use std::alloc::Global;

// A configuration has at most 1 MiB.
const CONFIG_LIMIT: usize = 1 << 20;

// The fault that a failed call of the configuration becomes.
fn of_device(error: DeviceError) -> Fault<Usage>
    ensures { result ≡ of_device error }
{
    match error {
        DeviceError::Failed => Fault::Failed(Object::Config),
        DeviceError::NoMemory => Fault::NoMemory,
    }
}

// The first bytes that are left, at most `limit`.
fn read_prefix<I: InputFiles>(
    alloc: Global,
    config: &mut I,
    limit: usize,
) -> Result<Vec<u8>, DeviceError>
    ensures bytes { IfOk result (λ v. IfSome (I.state config.old).left (λ bytes. v.items ≡ take limit bytes)) }
    ensures files { (I.state config.new).files ≡ (I.state config.old).files }
    ensures cause { HasCause (I.state config.old).faults (I.state config.new).faults result }
{
    let mut bytes = Vec::new(alloc);
    let mut buf = [0u8; 32768];
    while bytes.len() < limit {
        let count = config.read(&mut buf)?;
        if count == 0 {
            return Ok(bytes);
        }
        bytes.extend_from_slice(&buf[..count])?;
    }
    bytes.truncate(limit);
    Ok(bytes)
}

// The bytes of the file at this path, at most as many as the limit; None where it isn't there.
fn read_file<I: InputFiles>(
    alloc: Global,
    config: &mut I,
    path: &str,
    limit: usize,
) -> Result<Option<Vec<u8>>, Fault<Usage>>
    requires { limit + 1 < 2 ^ 63 }
    ensures bytes { IfOk result (IsFileOf path.now (I.state config.old)) }
    ensures fits { IfOk result (λ r. IfSome r (λ (v : Vec ℕ Global). length v.items ≤ limit)) }
    ensures cause { IfErr result (FileReadCause path.now limit (I.state config.old) (I.state config.new)) }
    ensures later { (I.state config.old).faults ≤ (I.state config.new).faults }
    ensures files { (I.state config.new).files ≡ (I.state config.old).files }
{
    match config.open(path) {
        Ok(true) => {}
        Ok(false) => return Ok(None),
        Err(error) => return Err(of_device(error)),
    }
    match read_prefix(alloc, config, limit + 1) {
        Ok(bytes) => {
            if bytes.len() <= limit {
                return Ok(Some(bytes));
            }
            Err(Fault::Stage(StageFault::ConfigLong {
                path: String::from_str(alloc, path)?,
                limit: limit as u64,
            }))
        }
        Err(error) => Err(of_device(error)),
    }
}

// The bytes of the configuration that the arguments name.
fn configuration<I: InputFiles>(
    alloc: Global,
    arguments: &[String],
    config: &mut I,
    limit: usize,
) -> Result<Vec<u8>, Fault<Usage>>
    requires { limit ≡ config_limit }
    ensures bytes { IfOk result (IsConfigurationOf arguments.now (I.state config.old)) }
    ensures fits { IfOk result (λ v. length v.items ≤ limit) }
    ensures cause { IfErr result (ReadingCause arguments.now (I.state config.old) (I.state config.new)) }
    ensures later { (I.state config.old).faults ≤ (I.state config.new).faults }
    ensures unread { NamesNone arguments.now → config.new ≡ config.old }
    ensures files { (I.state config.new).files ≡ (I.state config.old).files }
{
    let path = match config_path(alloc, arguments) {
        Ok(path) => path,
        Err(usage) => return Err(of_usage(usage)),
    };
    match path {
        ConfigPath::Nowhere => Ok(Vec::new(alloc)),
        ConfigPath::Usual(path) => match read_file(alloc, config, &path, limit)? {
            Some(bytes) => Ok(bytes),
            None => Ok(Vec::new(alloc)),
        },
        ConfigPath::Named(path) => match read_file(alloc, config, &path, limit)? {
            Some(bytes) => Ok(bytes),
            None => Err(Fault::Stage(StageFault::ConfigMissing { path })),
        },
    }
}

/// The command that the arguments and their configuration ask for.
pub(crate) fn read_command<I: InputFiles>(
    alloc: Global,
    arguments: &[String],
    config: &mut I,
) -> Result<Command, Fault<Usage>>
    ensures command { IfOk result (IsCommandOf arguments.now (I.state config.old)) }
    ensures cause { IfErr result (ReadingCause arguments.now (I.state config.old) (I.state config.new)) }
    ensures later { (I.state config.old).faults ≤ (I.state config.new).faults }
    ensures unread { NamesNone arguments.now → config.new ≡ config.old }
    ensures files { (I.state config.new).files ≡ (I.state config.old).files }
{
    let bytes = configuration(alloc, arguments, config, CONFIG_LIMIT)?;
    match resolve_arguments(alloc, arguments, &bytes) {
        Ok(command) => Ok(command),
        Err(usage) => Err(of_usage(usage)),
    }
}
