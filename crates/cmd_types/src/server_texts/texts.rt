// The status and the message of each refusal.
ghost use Rattle.std.specs.Prelude.{◌≡◌, IfOk};
ghost use Rattle.cmd_types.specs.ServerTextsTexts.{server_status, server_message, said_text};

use crate::stages::{bytes_of, push_shown, quoted};
use base_text::NoMemory;
use server_talk::ServerFault;
use std::alloc::Global;

/// The status of a server's answer that is refused.
pub fn server_status(fault: &ServerFault) -> u8
    ensures { result ≡ server_status fault.now }
{
    match fault {
        ServerFault::SystemMismatch { .. } => 47,
        ServerFault::ServerSaid { .. } => 48,
        ServerFault::AuthUnsupported { .. } => 49,
        ServerFault::ServerForm { .. } => 50,
        ServerFault::ServerEnded { .. } => 51,
        ServerFault::TooLong { .. } => 70,
        ServerFault::TooMany { .. } => 71,
        ServerFault::ServerConnection => 83,
        ServerFault::NoMemory => 90,
    }
}

// The message of a server's own error.
fn said_text(alloc: Global, code: &str, text: &str) -> Result<Vec<u8>, NoMemory>
    ensures { IfOk result (λ line. line.items ≡ said_text code.now text.now) }
{
    let mut line = quoted(alloc, "server: [", code, "] ")?;
    push_shown(&mut line, text)?;
    Ok(line)
}

/// The message of a server's answer that is refused.
pub fn server_message(alloc: Global, fault: &ServerFault) -> Result<Vec<u8>, NoMemory>
    ensures { IfOk result (λ line. line.items ≡ server_message fault.now) }
{
    match fault {
        ServerFault::SystemMismatch { kept, found } => bytes_of(format!(in alloc;
            "control file has system {kept}, server has system {found}"
        )),
        ServerFault::ServerSaid { code, text } => said_text(alloc, code, text),
        ServerFault::AuthUnsupported { code } => bytes_of(format!(in alloc;
            "authentication {code} is not supported"
        )),
        ServerFault::ServerForm { at } => bytes_of(format!(in alloc;
            "server byte {at} is not valid"
        )),
        ServerFault::ServerEnded { at } => bytes_of(format!(in alloc;
            "server ended after {at} bytes"
        )),
        ServerFault::TooLong { .. } => bytes_of(String::from_str(
            alloc,
            "'server' is longer than 16777216",
        )),
        ServerFault::TooMany { limit } => bytes_of(format!(in alloc; "more than {limit}")),
        ServerFault::ServerConnection => bytes_of(String::from_str(
            alloc,
            "server connection failed",
        )),
        ServerFault::NoMemory => bytes_of(String::from_str(alloc, "out of memory")),
    }
}
