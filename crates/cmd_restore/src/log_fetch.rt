// How a restored server fetches the log.
ghost use Rattle.std.specs.Prelude.{◌≡◌, ◌++◌, map, IfOk, OnOk, option_map, codes};
ghost use Rattle.restore_make.specs.Options.{recovery_of};
ghost use Rattle.cmd_restore.specs.Fetching.{is_plain, doubled_byte, quoted_byte, quoted, config_text, path_text, fetch_text, configuration_of, arguments_of, recovery_type, recovery_with, fetch_of, settings_for};
ghost use Rattle.cmd_restore.specs.Targets.{end_of, is_standby, lines_in};

use crate::order::{Configuration, FetchArguments, RecoveryEnd, RecoveryType};
use crate::target_lines::settings_of;
use restore_make::{LogFetch, Recovery};
use std::alloc::{AllocError, Global};

// Whether the shell takes the byte as it is.
fn is_plain(byte: u8) -> bool
    ensures { result ≡ is_plain byte }
{
    matches!(
        byte,
        b'a'..=b'z' | b'A'..=b'Z' | b'0'..=b'9' | b'/' | b'.' | b'_' | b'-' | b'%' | 128..=255
    )
}

// Adds a byte, twice where the settings' file or the server takes one for something else.
fn add_doubled(line: &mut Vec<u8>, byte: u8) -> Result<(), AllocError>
    ensures { OnOk result (line.new.items ≡ line.old.items ++ doubled_byte byte) }
{
    if byte == b'\'' || byte == b'\\' || byte == b'%' {
        line.push(byte)?;
    }
    line.push(byte)?;
    Ok(())
}

// Adds a byte, so that the shell reads it as part of the word.
fn add_byte(line: &mut Vec<u8>, byte: u8) -> Result<(), AllocError>
    ensures { OnOk result (line.new.items ≡ line.old.items ++ quoted_byte byte) }
{
    if !is_plain(byte) {
        line.extend_from_slice(b"\\\\")?;
    }
    add_doubled(line, byte)
}

fn add_quoted(line: &mut Vec<u8>, text: &[u8]) -> Result<(), AllocError>
    ensures { OnOk result (line.new.items ≡ line.old.items ++ quoted text.now) }
{
    for byte in text {
        add_byte(line, *byte)?;
    }
    Ok(())
}

// Adds what says which configuration is read, where the arguments say it.
fn add_config(line: &mut Vec<u8>, config: Configuration<'_>) -> Result<(), AllocError>
    ensures { OnOk result (line.new.items ≡ line.old.items ++ config_text (configuration_of config.entry)) }
{
    match config {
        Configuration::Usual => Ok(()),
        Configuration::Nowhere => line.extend_from_slice(b" --no-config"),
        Configuration::Named(path) => {
            line.extend_from_slice(b" --config=")?;
            add_quoted(line, path.as_bytes())
        }
    }
}

// Adds an option that is a path, where the arguments have it.
fn add_path(line: &mut Vec<u8>, name: &str, path: Option<&str>) -> Result<(), AllocError>
    ensures { OnOk result (line.new.items
        ≡ line.old.items ++ path_text name.now (option_map (λ p. p.now) path.entry)) }
{
    match path {
        Some(path) => {
            line.extend_from_slice(name.as_bytes())?;
            add_quoted(line, path.as_bytes())
        }
        None => Ok(()),
    }
}

// The command by which the server fetches a log file.
fn fetch_command(
    alloc: Global,
    stanza: &str,
    arguments: &FetchArguments<'_>,
) -> Result<Vec<u8>, AllocError>
    ensures { IfOk result (λ line. line.items ≡ fetch_text stanza.now (arguments_of arguments.now)) }
{
    let mut line = Vec::new(alloc);
    line.extend_from_slice(b"pgbackrest")?;
    add_config(&mut line, arguments.config)?;
    add_path(&mut line, " --pg1-path=", arguments.pg1_path)?;
    add_path(&mut line, " --repo1-path=", arguments.repo1_path)?;
    line.extend_from_slice(b" --stanza=")?;
    line.extend_from_slice(stanza.as_bytes())?;
    line.extend_from_slice(b" archive-get %f \"%p\"")?;
    Ok(line)
}

/// The command by which the server fetches a log file, where it is to recover.
pub(crate) fn fetch_of(
    alloc: Global,
    stanza: &str,
    recovery: &RecoveryType<'_>,
) -> Result<Vec<u8>, AllocError>
    ensures { IfOk result (λ line. line.items ≡ fetch_of stanza.now (recovery_type recovery.now)) }
{
    match recovery {
        RecoveryType::Nothing => Ok(Vec::new(alloc)),
        RecoveryType::FromArchive(recovery) => fetch_command(alloc, stanza, &recovery.fetch),
    }
}

/// The further settings of the recovery, where there is one.
pub(crate) fn settings_for(
    alloc: Global,
    recovery: &RecoveryType<'_>,
) -> Result<Vec<Vec<u8>>, AllocError>
    ensures { IfOk result (λ lines. lines_in lines ≡ settings_for (recovery_type recovery.now)) }
{
    match recovery {
        RecoveryType::Nothing => Ok(Vec::new(alloc)),
        RecoveryType::FromArchive(recovery) => {
            settings_of(alloc, &recovery.end, recovery.timeline, recovery.own)
        }
    }
}

fn is_standby(end: &RecoveryEnd<'_>) -> bool
    ensures { result ≡ is_standby (end_of end.now) }
{
    match end {
        RecoveryEnd::Standby => true,
        RecoveryEnd::Archive | RecoveryEnd::Consistent(_) | RecoveryEnd::Target(_) => false,
    }
}

/// How the server is to recover, by that command and these settings.
pub(crate) fn recovery_by<'a>(
    recovery: &RecoveryType<'_>,
    fetch: &'a [u8],
    settings: &'a [Vec<u8>],
) -> Recovery<'a>
    ensures { recovery_of result
        ≡ recovery_with (recovery_type recovery.now) fetch.now (map (λ line. line.items) settings.now) }
{
    match recovery {
        RecoveryType::Nothing => Recovery::Nothing,
        RecoveryType::FromArchive(recovery) => Recovery::FromArchive(LogFetch {
            command: fetch,
            settings,
            standby: is_standby(&recovery.end),
        }),
    }
}
