// A session with a server.
ghost use Rattle.std.specs.Prelude.{◌≤◌, ◌*◌};

/// How much a server has said since `open`: bytes, and messages, of which a session has 1,000,000 at most.
#[derive(Drop)]
pub struct Session {
    pub(crate) taken: u64,
    messages: u32,
    ghost few: { messages ≤ 1000000 },
    ghost short: { taken ≤ 16777221 * messages },
}

impl Session {
    ghost use Rattle.std.specs.Prelude.{◌≡◌, ◌≤◌, ◌<◌, ◌+◌, ◌^◌, length};
    ghost use Rattle.server_talk.specs.Talk.{following};
    ghost use Rattle.server_talk.specs.Views.{session_view};

    /// Nothing was taken.
    pub(crate) fn new() -> Session
        ensures { session_view result ≡ record { bytes = 0; messages = 0 } }
    {
        Session {
            taken: 0,
            messages: 0,
        }
    }

    /// The same once more.
    pub(crate) fn same(&self) -> Session
        ensures { result ≡ self.now }
    {
        Session {
            taken: self.taken,
            messages: self.messages,
        }
    }

    /// How many bytes were taken: fewer than 2^50.
    pub(crate) fn taken(&self) -> u64
        ensures value { result ≡ self.now.taken }
        ensures bound { result < 2 ^ 50 }
    {
        self.taken
    }

    /// How many messages may still come.
    pub(crate) fn left(&self) -> u32
        ensures { self.now.messages + result ≡ 1000000 }
    {
        1000000 - self.messages
    }

    /// The session once a message with this body was taken.
    pub(crate) fn following(self, body: &[u8]) -> Session
        requires few { self.messages < 1000000 }
        requires short { length body.now ≤ 16777216 }
        ensures value { session_view result ≡ following (session_view self) body.now }
        ensures count { result.messages ≡ self.messages + 1 }
    {
        Session {
            taken: self.taken + 5 + body.len() as u64,
            messages: self.messages + 1,
        }
    }
}
