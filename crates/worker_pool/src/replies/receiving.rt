// How far a reply was received.
ghost use Rattle.std.specs.Prelude.{◌≡◌, ◌+◌, ◌^◌, ◌<◌, ℕ, List, length};
ghost use Rattle.sha1.specs.Sha1.{sha1};
ghost use Rattle.sha1.specs.Sha1 as sha;
ghost use Rattle.worker_pool.specs.Receivings.{StartsAt, ReceivesMore};

use base_text::Sum;
use sha1::Sha1;

/// The longest part, in bytes.
const PART_SIZE: usize = 32 << 10;

/// How far the reply to a job was received. It has the item that it is at, the bytes of the whole reply, those of the
/// item with their digest, and whether each part of the item so far was of the full size.
#[derive(Drop)]
pub struct Receiving {
    pub(crate) item: u32,
    pub(crate) received_reply: u64,
    pub(crate) count: u64,
    pub(crate) full: bool,
    digest: Sha1,
}

impl Receiving {
    /// Nothing was received of the reply.
    pub fn new() -> Receiving
        ensures starts { StartsAt 0 result }
        ensures counts { result.received_reply ≡ 0 }
    {
        start_item(0, 0)
    }

    /// Takes the next bytes of the item, the last of this many of the reply.
    #[tactic(auto, unfolding(worker_protocol::specs::Frames::part_size))]
    pub(crate) fn receive_more(&mut self, bytes: &[u8], received_reply: u64)
        requires { self.old.count + length bytes.now < 2 ^ 64 }
        ensures more { ReceivesMore bytes.now self.old self.new }
        ensures counts { self.new.received_reply ≡ received_reply }
    {
        self.digest.update(bytes);
        self.received_reply = received_reply;
        self.count += bytes.len() as u64;
        self.full = bytes.len() == PART_SIZE;
    }

    /// Begins the next item, and returns the digest of what was received of the last one.
    pub(crate) fn receive_next(&mut self, received_reply: u64) -> Sum
        requires { self.old.item + 1 < 2 ^ 32 }
        ensures next { StartsAt (self.old.item + 1) self.new }
        ensures counts { self.new.received_reply ≡ received_reply }
        ensures sum { (m : List ℕ) → sha.Holds self.old.digest m → result.0 ≡ sha1 m }
    {
        let next = start_item(self.item + 1, received_reply);
        let old = std::mem::replace(self, next);
        Sum(old.digest.finalize())
    }
}

/// Nothing was received of the item.
fn start_item(item: u32, received_reply: u64) -> Receiving
    ensures starts { StartsAt item result }
    ensures counts { result.received_reply ≡ received_reply }
{
    let digest = Sha1::new();
    Receiving {
        item,
        received_reply,
        count: 0,
        full: true,
        digest,
    }
}
