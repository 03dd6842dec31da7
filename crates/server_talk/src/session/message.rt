// A server's messages.
ghost use Rattle.std.specs.Prelude.{◌≡◌, ◌≢◌, ◌≤◌, ◌<◌, ◌+◌, ◌^◌, true, length, IfOk, IfErr};
ghost use Rattle.server_talk.specs.declared.session.fault.ServerFault.TheVariants.{ServerConnection};
ghost use Rattle.server_talk.specs.Message.{least, is_length, body_count, header_of, body_of};
ghost use Rattle.server_talk.specs.Views.{message_view};
ghost use Rattle.server_talk.specs.Reads.{Gives, HasCause};
ghost use Rattle.server_talk.specs.Calls.{ReadsBody, ReadsMessage};

use crate::session::fault::ServerFault;
use crate::session::phase::{Phase, is_allowed};
use crate::session::take::take;
use base_devices::ServerConnection;
use std::alloc::Global;

// The greatest length of a message, which counts itself and not the kind: 16 MiB.
const MOST: u32 = 16777216;

#[derive(Drop)]
pub(crate) struct Message {
    pub kind: u8,
    pub body: Vec<u8>,
}

fn least(kind: u8) -> u32
    ensures { result ≡ least kind }
{
    match kind {
        b'R' => 8,
        b'D' => 6,
        b'C' => 5,
        _ => 4,
    }
}

fn is_length(kind: u8, count: u32) -> bool
    ensures value { result ≡ is_length kind count }
    ensures room { is_length kind count ≡ true → 4 ≤ count }
{
    if kind == b'Z' {
        count == 5
    } else {
        least(kind) <= count
    }
}

fn body_count(at: u64, kind: u8, count: u32) -> Result<(u8, usize), ServerFault>
    requires { at + 5 < 2 ^ 64 }
    ensures value { Gives (λ p. (p.0, p.1)) result (body_count at kind count) }
    ensures cause { IfErr result (λ e. e ≢ ServerConnection) }
    ensures bound { IfOk result (λ p. p.1 ≤ 16777216) }
{
    if !is_length(kind, count) {
        return Err(ServerFault::ServerForm { at: at + 1 });
    }
    if count > MOST {
        return Err(ServerFault::TooLong {
            length: u64::from(count),
        });
    }
    Ok((kind, (count - 4) as usize))
}

fn header_of(phase: Phase, at: u64, header: &[u8]) -> Result<(u8, usize), ServerFault>
    requires place { at + 5 < 2 ^ 64 }
    requires few { length header.now ≤ 5 }
    ensures value { Gives (λ p. (p.0, p.1)) result (header_of phase at header.now) }
    ensures cause { IfErr result (λ e. e ≢ ServerConnection) }
    ensures bound { IfOk result (λ p. p.1 ≤ 16777216) }
{
    match header {
        [] => Err(ServerFault::ServerEnded { at }),
        [kind, rest @ ..] => {
            if !is_allowed(phase, *kind) {
                return Err(ServerFault::ServerForm { at });
            }
            match rest {
                [a, b, c, d] => body_count(at, *kind, u32::from_be_bytes([*a, *b, *c, *d])),
                _ => Err(ServerFault::ServerEnded {
                    at: at + header.len() as u64,
                }),
            }
        }
    }
}

fn body_of(at: u64, kind: u8, count: usize, body: Vec<u8>) -> Result<Message, ServerFault>
    requires place { at + 5 + count < 2 ^ 64 }
    requires most { length body.items ≤ count }
    ensures value { Gives message_view result (body_of at kind count body.items) }
    ensures cause { IfErr result (λ e. e ≢ ServerConnection) }
    ensures bound { IfOk result (λ m. length m.body.items ≤ count) }
{
    if body.len() == count {
        Ok(Message { kind, body })
    } else {
        Err(ServerFault::ServerEnded {
            at: at + 5 + body.len() as u64,
        })
    }
}

// The body of a message whose header has been read.
fn message_of<V: ServerConnection>(
    alloc: Global,
    connection: &mut V,
    at: u64,
    kind: u8,
    count: usize,
) -> Result<Message, ServerFault>
    requires place { at + 5 + count < 2 ^ 64 }
    ensures read { ReadsBody V.state at kind count result connection.old connection.new }
    ensures sent { (V.state connection.new).sent ≡ (V.state connection.old).sent }
    ensures place { (V.state connection.new).place ≡ (V.state connection.old).place }
    ensures cause { HasCause (V.state connection.old).faults (V.state connection.new).faults result }
    ensures bound { IfOk result (λ m. length m.body.items ≤ count) }
{
    let body = take(alloc, connection, count)?;
    body_of(at, kind, count, body)
}

/// The next message of a talk that has taken this many bytes.
pub(crate) fn message_at<V: ServerConnection>(
    alloc: Global,
    connection: &mut V,
    phase: Phase,
    at: u64,
) -> Result<Message, ServerFault>
    requires { at + 16777221 < 2 ^ 64 }
    ensures read { ReadsMessage V.state phase at result connection.old connection.new }
    ensures sent { (V.state connection.new).sent ≡ (V.state connection.old).sent }
    ensures place { (V.state connection.new).place ≡ (V.state connection.old).place }
    ensures cause { HasCause (V.state connection.old).faults (V.state connection.new).faults result }
    ensures bound { IfOk result (λ m. length m.body.items ≤ 16777216) }
{
    let header = take(alloc, connection, 5)?;
    match header_of(phase, at, &header) {
        Ok((kind, count)) => message_of(alloc, connection, at, kind, count),
        Err(fault) => Err(fault),
    }
}
