// The status and the message of each refusal of a choice.
ghost use Rattle.std.specs.Prelude.{◌≡◌, IfOk, string_bytes};
ghost use Rattle.base_model.specs.Text.{hex_upper};
ghost use Rattle.restore_choice.specs.Texts.{choice_status, choice_message, damaged_message, history_message};

use crate::fault::{ChoiceFault, DamagedManifest};
use base_text::NoMemory;
use cmd_types::{bytes_of, damage_text, long_text, quoted};
use std::alloc::Global;

/// The status of a refusal.
pub fn choice_status(fault: &ChoiceFault) -> u8
    ensures { result ≡ choice_status fault.now }
{
    match fault {
        ChoiceFault::NoBackup => 60,
        ChoiceFault::SetMissing { .. } => 61,
        ChoiceFault::HistoryMissing { .. } => 103,
        ChoiceFault::HistoryForm { .. } => 104,
        ChoiceFault::HistoryLong { .. } => 70,
        ChoiceFault::ManifestDamaged(_) => 64,
        ChoiceFault::TargetEarly => 102,
    }
}

/// The message of a manifest of which neither member can be read.
pub fn damaged_message(alloc: Global, fault: &DamagedManifest) -> Result<Vec<u8>, NoMemory>
    ensures { IfOk result (λ line. line.items ≡ damaged_message fault.now) }
{
    let end = damage_text(alloc, &fault.main, &fault.copy)?;
    quoted(alloc, "manifest of '", &fault.label, &end)
}

// The eight digits of a timeline's number.
fn digits_of(alloc: Global, timeline: u32) -> Result<String, NoMemory>
    ensures { IfOk result (λ digits. string_bytes digits ≡ hex_upper 8 timeline) }
{
    Ok(hex::encode_upper(alloc, timeline.to_be_bytes().as_slice())?)
}

// The message of a line of a history that isn't valid.
fn history_message(alloc: Global, timeline: u32, line: u32) -> Result<Vec<u8>, NoMemory>
    ensures { IfOk result (λ text. text.items ≡ history_message timeline line) }
{
    let digits = digits_of(alloc, timeline)?;
    bytes_of(format!(in alloc; "history {digits} line {line} is not valid"))
}

/// The message of a refusal.
pub fn choice_message(alloc: Global, fault: &ChoiceFault) -> Result<Vec<u8>, NoMemory>
    ensures { IfOk result (λ line. line.items ≡ choice_message fault.now) }
{
    match fault {
        ChoiceFault::NoBackup => bytes_of(String::from_str(alloc, "no backup exists")),
        ChoiceFault::SetMissing { label } => bytes_of(format!(in alloc;
            "backup set '{label}' does not exist"
        )),
        ChoiceFault::HistoryMissing { timeline } => bytes_of(format!(in alloc;
            "history of timeline {timeline} is missing"
        )),
        ChoiceFault::HistoryForm { timeline, line } => history_message(alloc, *timeline, *line),
        ChoiceFault::HistoryLong { name, limit } => long_text(alloc, name, *limit),
        ChoiceFault::ManifestDamaged(fault) => damaged_message(alloc, fault),
        ChoiceFault::TargetEarly => bytes_of(String::from_str(
            alloc,
            "no backup is early enough for the target",
        )),
    }
}
