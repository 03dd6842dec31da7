// What a talk waits for (PostgreSQL manual, "Message Flow").
ghost use Rattle.std.specs.Prelude.{◌≡◌};
ghost use Rattle.server_talk.specs.Message.{due, is_notice, is_aside, is_allowed};
ghost use Rattle.server_talk.specs.Talk.{is_over};

/// The message that is due, and `Over` at the end.
#[derive(Clone, Copy, Debug, PartialEq, Eq)]
pub(crate) enum Phase {
    /// the answer to the startup message
    Granted,
    /// the end of the start, after what the server says about itself
    Settled,
    /// the description of a query's columns
    Heading,
    Row,
    Complete,
    /// the end of a query's answer
    Ready,
    Over,
}

pub(crate) fn due(phase: Phase) -> u8
    ensures { result ≡ due phase }
{
    match phase {
        Phase::Granted => b'R',
        Phase::Settled => b'Z',
        Phase::Heading => b'T',
        Phase::Row => b'D',
        Phase::Complete => b'C',
        Phase::Ready => b'Z',
        Phase::Over => 0,
    }
}

fn is_notice(kind: u8) -> bool
    ensures { result ≡ is_notice kind }
{
    kind == b'S' || kind == b'N' || kind == b'A'
}

pub(crate) fn is_aside(phase: Phase, kind: u8) -> bool
    ensures { result ≡ is_aside phase kind }
{
    match phase {
        Phase::Granted => false,
        Phase::Settled => kind == b'S' || kind == b'K' || kind == b'N',
        Phase::Heading => is_notice(kind),
        Phase::Row => is_notice(kind),
        Phase::Complete => is_notice(kind),
        Phase::Ready => is_notice(kind),
        Phase::Over => false,
    }
}

pub(crate) fn is_allowed(phase: Phase, kind: u8) -> bool
    ensures { result ≡ is_allowed phase kind }
{
    is_aside(phase, kind) || kind == b'E' || kind == due(phase)
}

pub(crate) fn is_over(phase: Phase) -> bool
    ensures { result ≡ is_over phase }
{
    match phase {
        Phase::Granted => false,
        Phase::Settled => false,
        Phase::Heading => false,
        Phase::Row => false,
        Phase::Complete => false,
        Phase::Ready => false,
        Phase::Over => true,
    }
}
