// A talk: message after message, until it is over.
ghost use Rattle.std.specs.Prelude.{◌≡◌, ◌≢◌, ◌≤◌, ◌<◌, ◌+◌, ◌^◌, length, IfOk, IfErr};
ghost use Rattle.server_talk.specs.declared.session.phase.Phase.TheVariants.{Row};
ghost use Rattle.server_talk.specs.declared.session.fault.ServerFault.TheVariants.{ServerConnection};
ghost use Rattle.server_talk.specs.Message.{of_kind};
ghost use Rattle.server_talk.specs.Talk.{receive_granted, receive_reply, receive_due, goes_on, following};
ghost use Rattle.server_talk.specs.Views.{message_view, talk_view, cells_view, session_view};
ghost use Rattle.server_talk.specs.Reads.{Gives, HasCause};
ghost use Rattle.server_talk.specs.Calls.{ReadsRun};

use crate::session::cells::cells;
use crate::session::fault::ServerFault;
use crate::session::fields::{field, is_one_text};
use crate::session::message::{Message, message_at};
use crate::session::phase::{Phase, is_aside, is_over};
use crate::session::session::Session;
use base_devices::ServerConnection;
use std::alloc::Global;

/// What was received: what is due, the row and the place of its end.
#[derive(Drop)]
pub(crate) struct Talk {
    pub phase: Phase,
    pub row: Vec<Option<String>>,
    pub row_end: u64,
    pub session: Session,
}

fn goes_on(talk: Talk, phase: Phase, body: &[u8]) -> Talk
    requires few { talk.session.messages < 1000000 }
    requires short { length body.now ≤ 16777216 }
    ensures value { talk_view result ≡ goes_on (talk_view talk) phase (following (session_view talk.session) body.now) }
    ensures count { result.session.messages ≡ talk.session.messages + 1 }
{
    Talk {
        phase,
        row: talk.row,
        row_end: talk.row_end,
        session: talk.session.following(body),
    }
}

// The answer to the startup message.
fn receive_grant(talk: Talk, body: &[u8]) -> Result<Talk, ServerFault>
    requires few { talk.session.messages < 1000000 }
    requires short { length body.now ≤ 16777216 }
    ensures value { Gives talk_view result (receive_granted (talk_view talk) body.now) }
    ensures cause { IfErr result (λ e. e ≢ ServerConnection) }
    ensures count { IfOk result (λ t. t.session.messages ≡ talk.session.messages + 1) }
{
    let at = talk.session.taken();
    let [a, b, c, d, rest @ ..] = body else {
        return Err(ServerFault::ServerForm { at: at + 1 });
    };
    let code = u32::from_be_bytes([*a, *b, *c, *d]);
    if code != 0 {
        return Err(ServerFault::AuthUnsupported { code });
    }
    if !rest.is_empty() {
        return Err(ServerFault::ServerForm { at: at + 9 });
    }
    Ok(goes_on(talk, Phase::Settled, body))
}

// A row of this many columns.
fn receive_row(alloc: Global, columns: u16, talk: Talk, body: &[u8]) -> Result<Talk, ServerFault>
    requires few { talk.session.messages < 1000000 }
    requires short { length body.now ≤ 16777216 }
    ensures value { Gives talk_view result (receive_due columns Row (talk_view talk) (of_kind 68 body.now)) }
    ensures cause { IfErr result (λ e. e ≢ ServerConnection) }
    ensures count { IfOk result (λ t. t.session.messages ≡ talk.session.messages + 1) }
{
    let at = talk.session.taken() + 5;
    let row = match cells(alloc, columns, at, body) {
        Ok(row) => row,
        Err(fault) => return Err(fault),
    };
    Ok(Talk {
        phase: Phase::Complete,
        row,
        row_end: at + body.len() as u64,
        session: talk.session.following(body),
    })
}

fn receive_due(
    alloc: Global,
    columns: u16,
    talk: Talk,
    body: &[u8],
    kind: u8,
) -> Result<Talk, ServerFault>
    requires few { talk.session.messages < 1000000 }
    requires short { length body.now ≤ 16777216 }
    ensures value { Gives talk_view result
        (receive_due columns talk.phase (talk_view talk) (of_kind kind body.now)) }
    ensures cause { IfErr result (λ e. e ≢ ServerConnection) }
    ensures count { IfOk result (λ t. t.session.messages ≡ talk.session.messages + 1) }
{
    match talk.phase {
        Phase::Granted => receive_grant(talk, body),
        Phase::Settled => Ok(goes_on(talk, Phase::Over, body)),
        Phase::Heading => Ok(goes_on(talk, Phase::Row, body)),
        Phase::Row => receive_row(alloc, columns, talk, body),
        Phase::Complete => {
            if is_one_text(body) {
                Ok(goes_on(talk, Phase::Ready, body))
            } else {
                Err(ServerFault::ServerForm {
                    at: talk.session.taken() + 5,
                })
            }
        }
        Phase::Ready => Ok(goes_on(talk, Phase::Over, body)),
        Phase::Over => Err(ServerFault::ServerForm {
            at: talk.session.taken(),
        }),
    }
}

fn receive_reply(
    alloc: Global,
    columns: u16,
    talk: Talk,
    message: &Message,
) -> Result<Talk, ServerFault>
    requires few { talk.session.messages < 1000000 }
    requires short { length message.now.body.items ≤ 16777216 }
    ensures value { Gives talk_view result (receive_reply columns (talk_view talk) (message_view message.now)) }
    ensures cause { IfErr result (λ e. e ≢ ServerConnection) }
    ensures count { IfOk result (λ t. t.session.messages ≡ talk.session.messages + 1) }
{
    let phase = talk.phase;
    if is_aside(phase, message.kind) {
        return Ok(goes_on(talk, phase, &message.body));
    }
    if message.kind == b'E' {
        return Err(ServerFault::ServerSaid {
            code: field(alloc, b'C', &message.body)?,
            text: field(alloc, b'M', &message.body)?,
        });
    }
    receive_due(alloc, columns, talk, &message.body, message.kind)
}

/// The talk from `start` on, of at most this many messages.
pub(crate) fn run<V: ServerConnection>(
    alloc: Global,
    connection: &mut V,
    limit: u32,
    columns: u16,
    start: Talk,
) -> Result<Talk, ServerFault>
    requires { start.session.messages + limit ≡ 1000000 }
    ensures read { ReadsRun V.state limit columns start result connection.old connection.new }
    ensures sent { (V.state connection.new).sent ≡ (V.state connection.old).sent }
    ensures place { (V.state connection.new).place ≡ (V.state connection.old).place }
    ensures cause { HasCause (V.state connection.old).faults (V.state connection.new).faults result }
{
    let mut talk = start;
    for i in 0..limit {
        if is_over(talk.phase) {
            return Ok(talk);
        }
        let message = match message_at(alloc, connection, talk.phase, talk.session.taken) {
            Ok(message) => message,
            Err(fault) => return Err(fault),
        };
        talk = match receive_reply(alloc, columns, talk, &message) {
            Ok(next) => next,
            Err(fault) => return Err(fault),
        };
    }
    if is_over(talk.phase) {
        Ok(talk)
    } else {
        Err(ServerFault::TooMany { limit: 1000000 })
    }
}
