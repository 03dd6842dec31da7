// The status and the message of each refusal before a command's own part, and texts that messages of commands share.
ghost use Rattle.std.specs.Prelude.{◌≡◌, ◌++◌, codes, decimal, IfOk, IsOkAnd, OnOk, string_bytes};
ghost use Rattle.cmd_types.specs.StagesTexts.{shown, shown_byte, file_text, member_text, damage_text, damaged_text, identity_text, mismatch_text, history_text, twice_text, long_text, stage_status, stage_message, object_status, object_message};

use crate::stages::fault::{ControlFile, StageFault};
use crate::stages::object::Object;
use base_text::NoMemory;
use repo_info::MemberFault;
use repo_stanza::Identity;
use std::alloc::{AllocError, Global};

fn file_text(file: ControlFile) -> &'static str
    ensures { result.now ≡ file_text file }
{
    match file {
        ControlFile::Control => "global/pg_control",
        ControlFile::Version => "PG_VERSION",
    }
}

fn member_text(alloc: Global, fault: &MemberFault) -> Result<String, AllocError>
    ensures { IfOk result (λ text. string_bytes text ≡ member_text fault.now) }
{
    match fault {
        MemberFault::Absent => String::from_str(alloc, "absent"),
        MemberFault::TooLong => String::from_str(alloc, "too long"),
        MemberFault::Syntax { line } => format!(in alloc; "line {line}"),
        MemberFault::Sum { .. } => String::from_str(alloc, "checksum"),
        MemberFault::Form { key, .. } => format!(in alloc; "key {key}"),
    }
}

fn identity_text(alloc: Global, identity: &Identity) -> Result<String, AllocError>
    ensures { IfOk result (λ text. string_bytes text ≡ identity_text identity.now) }
{
    let system = identity.system;
    let version = identity.version;
    format!(in alloc; "system {system} version {version}")
}

// A byte of a text as a line shows it.
fn shown_byte(byte: u8) -> u8
    ensures { result ≡ shown_byte byte }
{
    if byte < 32 || byte == 127 { b'?' } else { byte }
}

/// Adds a text as a line shows it: with `?` for each control character.
pub fn push_shown(line: &mut Vec<u8>, word: &str) -> Result<(), NoMemory>
    ensures { OnOk result (line.new.items ≡ line.old.items ++ shown word.now) }
{
    for byte in word.as_bytes() {
        line.push(shown_byte(*byte))?;
    }
    Ok(())
}

/// A text with a text in it, as a line shows that.
pub fn quoted(alloc: Global, prefix: &str, word: &str, end: &str) -> Result<Vec<u8>, NoMemory>
    ensures { IfOk result (λ line. line.items ≡ prefix.now ++ (shown word.now ++ end.now)) }
{
    let mut line = Vec::new(alloc);
    line.extend_from_slice(prefix.as_bytes())?;
    push_shown(&mut line, word)?;
    line.extend_from_slice(end.as_bytes())?;
    Ok(line)
}

/// The bytes of a text, where there was memory for it.
pub fn bytes_of(text: Result<String, AllocError>) -> Result<Vec<u8>, NoMemory>
    ensures { IfOk result (λ bytes. IsOkAnd text (λ text. bytes.items ≡ string_bytes text)) }
{
    Ok(text?.into_bytes())
}

/// What follows the name of an info file or a manifest: the faults of both members.
#[tactic(auto, unfolding(crate::specs::StagesTexts::damage_text))]
pub fn damage_text(
    alloc: Global,
    main: &MemberFault,
    copy: &MemberFault,
) -> Result<String, AllocError>
    ensures { IfOk result (λ text. string_bytes text ≡ damage_text main.now copy.now) }
{
    let main = member_text(alloc, main)?;
    let copy = member_text(alloc, copy)?;
    format!(in alloc; "' is damaged: {main} / {copy}")
}

/// The message of an info file of which neither member can be read.
pub fn damaged_text(
    alloc: Global,
    name: &str,
    main: &MemberFault,
    copy: &MemberFault,
) -> Result<Vec<u8>, NoMemory>
    ensures { IfOk result (λ line. line.items ≡ damaged_text name.now main.now copy.now) }
{
    let end = damage_text(alloc, main, copy)?;
    let mut line = Vec::new(alloc);
    line.extend_from_slice("info '".as_bytes())?;
    line.extend_from_slice(name.as_bytes())?;
    line.extend_from_slice(end.as_bytes())?;
    Ok(line)
}

/// The message of a file that is too long.
pub fn long_text(alloc: Global, name: &str, limit: u64) -> Result<Vec<u8>, NoMemory>
    ensures { IfOk result (λ line. line.items ≡ long_text name.now limit) }
{
    let end = format!(in alloc; "' is longer than {limit}")?;
    quoted(alloc, "'", name, &end)
}

/// The message of pairs whose histories differ at this place.
pub fn history_text(alloc: Global, at: u32) -> Result<Vec<u8>, NoMemory>
    ensures { IfOk result (λ line. line.items ≡ history_text at) }
{
    bytes_of(format!(in alloc; "archive history and backup history differ at {at}"))
}

/// The message of a file of the log that is stored twice.
pub fn twice_text(alloc: Global, first: &str, second: &str) -> Result<Vec<u8>, NoMemory>
    ensures { IfOk result (λ line. line.items ≡ twice_text first.now second.now) }
{
    bytes_of(format!(in alloc; "'{first}' and '{second}' are both stored"))
}

/// The message of a data folder of another cluster than the stanza's.
pub fn mismatch_text(alloc: Global, kept: &Identity, found: &Identity) -> Result<Vec<u8>, NoMemory>
    ensures { IfOk result (λ line. line.items ≡ mismatch_text kept.now found.now) }
{
    let kept = identity_text(alloc, kept)?;
    let found = identity_text(alloc, found)?;
    let mut line = Vec::new(alloc);
    line.extend_from_slice("stanza has ".as_bytes())?;
    line.extend_from_slice(kept.as_bytes())?;
    line.extend_from_slice(", data folder has ".as_bytes())?;
    line.extend_from_slice(found.as_bytes())?;
    Ok(line)
}

/// The status of a refusal before a command's own part.
pub fn stage_status(fault: &StageFault) -> u8
    ensures { result ≡ stage_status fault.now }
{
    match fault {
        StageFault::ConfigMissing { .. } => 10,
        StageFault::ConfigLong { .. } => 70,
        StageFault::Held { .. } => 20,
        StageFault::ControlMissing { .. } => 28,
        StageFault::ControlShort { .. } => 25,
        StageFault::VersionText => 26,
        StageFault::VersionUnsupported { .. } => 27,
        StageFault::StanzaMissing { .. } => 21,
        StageFault::InfoDamaged { .. } => 22,
    }
}

/// The message of a refusal before a command's own part.
pub fn stage_message(alloc: Global, fault: &StageFault) -> Result<Vec<u8>, NoMemory>
    ensures { IfOk result (λ line. line.items ≡ stage_message fault.now) }
{
    match fault {
        StageFault::ConfigMissing { path } => quoted(
            alloc,
            "configuration '",
            path,
            "' is missing",
        ),
        StageFault::ConfigLong { path, limit } => long_text(alloc, path, *limit),
        StageFault::Held { name } => bytes_of(format!(in alloc; "lock '{name}' is held")),
        StageFault::ControlMissing { file } => {
            let name = file_text(*file);
            bytes_of(format!(in alloc; "'{name}' is missing"))
        }
        StageFault::ControlShort { length } => bytes_of(format!(in alloc;
            "control file has {length} bytes"
        )),
        StageFault::VersionText => bytes_of(String::from_str(alloc, "PG_VERSION is not valid")),
        StageFault::VersionUnsupported { version } => bytes_of(format!(in alloc;
            "version {version} is not supported"
        )),
        StageFault::StanzaMissing { stanza } => bytes_of(format!(in alloc;
            "stanza '{stanza}' does not exist"
        )),
        StageFault::InfoDamaged { name, main, copy } => damaged_text(alloc, name, main, copy),
    }
}

/// The status of an object that failed.
pub fn object_status(object: Object) -> u8
    ensures { result ≡ object_status object }
{
    match object {
        Object::Repo => 80,
        Object::Spool => 81,
        Object::TheDataFolder => 82,
        Object::Server => 83,
        Object::Clock => 84,
        Object::Locks => 85,
        Object::Config => 86,
        Object::Output => 87,
        Object::Others => 88,
    }
}

/// The message of an object that failed; of the output there is none.
pub fn object_message(object: Object) -> &'static str
    ensures { result.now ≡ object_message object }
{
    match object {
        Object::Repo => "repository failed",
        Object::Spool => "spool failed",
        Object::TheDataFolder => "data folder failed",
        Object::Server => "server connection failed",
        Object::Clock => "clock failed",
        Object::Locks => "lock failed",
        Object::Config => "configuration failed",
        Object::Output => "",
        Object::Others => "unable to start a process",
    }
}
