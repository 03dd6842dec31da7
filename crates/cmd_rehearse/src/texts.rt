// The status and the message of each refusal.
ghost use Rattle.std.specs.Prelude.{◌≡◌, IfOk};
ghost use Rattle.cmd_rehearse.specs.Texts.{step_message, rehearse_status, rehearse_message};

use crate::fault::{RehearseFault, StepFault};
use base_text::NoMemory;
use cmd_archive_push::push_message;
use cmd_backup_offline::offline_message;
use cmd_restore::restore_message;
use cmd_stanza_create::create_message;
use cmd_types::{bytes_of, history_text, quoted};
use cmd_verify::verify_message;
use std::alloc::Global;

/// The status of a refusal: that of a later step is a number of its own, for something was made before it.
pub fn rehearse_status(fault: &RehearseFault) -> u8
    ensures { result ≡ rehearse_status fault.now }
{
    match fault {
        RehearseFault::StanzaExists { .. } => 72,
        RehearseFault::NotEmpty { .. } => 62,
        RehearseFault::Step(_) => 76,
    }
}

// The message of a step's refusal.
fn step_message(alloc: Global, fault: &StepFault) -> Result<Vec<u8>, NoMemory>
    ensures { IfOk result (λ line. line.items ≡ step_message fault.now) }
{
    match fault {
        StepFault::Create(fault) => create_message(alloc, fault),
        StepFault::Push(fault) => push_message(alloc, fault),
        StepFault::Take(fault) => offline_message(alloc, fault),
        StepFault::Lost => bytes_of(String::from_str(
            alloc,
            "what was rehearsed before can't be read",
        )),
        StepFault::HistoryDiffers { at } => history_text(alloc, *at),
        StepFault::Recover(fault) => restore_message(alloc, fault),
        StepFault::Examine(fault) => verify_message(alloc, fault),
    }
}

/// The message of a refusal.
pub fn rehearse_message(alloc: Global, fault: &RehearseFault) -> Result<Vec<u8>, NoMemory>
    ensures { IfOk result (λ line. line.items ≡ rehearse_message fault.now) }
{
    match fault {
        RehearseFault::StanzaExists { stanza } => {
            bytes_of(format!(in alloc; "stanza '{stanza}' exists"))
        }
        RehearseFault::NotEmpty { path } => quoted(alloc, "folder is not empty: '", path, "'"),
        RehearseFault::Step(fault) => step_message(alloc, fault),
    }
}
