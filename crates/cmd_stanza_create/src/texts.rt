// The status and the message of each refusal.
ghost use Rattle.std.specs.Prelude.{◌≡◌, IfOk};
ghost use Rattle.cmd_stanza_create.specs.Texts.{create_status, create_message};

use crate::fault::CreateFault;
use base_text::NoMemory;
use cmd_types::{
    bytes_of, damaged_text, history_text, mismatch_text, quoted, server_message, server_status,
};
use std::alloc::Global;

/// The status of a refusal.
pub fn create_status(fault: &CreateFault) -> u8
    ensures { result ≡ create_status fault.now }
{
    match fault {
        CreateFault::Server(fault) => server_status(fault),
        CreateFault::InfoDamaged { .. } => 22,
        CreateFault::HistoryDiffers { .. } => 101,
        CreateFault::StanzaMismatch { .. } => 23,
        CreateFault::ArchiveLost { .. } => 24,
        CreateFault::FilesFound { .. } => 29,
    }
}

/// The message of a refusal.
pub fn create_message(alloc: Global, fault: &CreateFault) -> Result<Vec<u8>, NoMemory>
    ensures { IfOk result (λ line. line.items ≡ create_message fault.now) }
{
    match fault {
        CreateFault::Server(fault) => server_message(alloc, fault),
        CreateFault::InfoDamaged { name, main, copy } => damaged_text(alloc, name, main, copy),
        CreateFault::HistoryDiffers { at } => history_text(alloc, *at),
        CreateFault::StanzaMismatch { kept, found } => mismatch_text(alloc, kept, found),
        CreateFault::ArchiveLost { label } => bytes_of(format!(in alloc;
            "archive info is missing, backup info lists '{label}'"
        )),
        CreateFault::FilesFound { name } => {
            quoted(
                alloc,
                "info files are missing, repository holds '",
                name,
                "'",
            )
        }
    }
}
