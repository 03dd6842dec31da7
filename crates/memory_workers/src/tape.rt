// Bytes that are given in order.
use std::alloc::AllocError;
use std::marker::Model;

/// Bytes, of which a first part was given.
#[derive(Drop)]
pub(crate) struct Tape {
    bytes: Vec<u8>,
    // how many of them were given
    at: usize,
}

impl Model for Tape {
    ghost use Rattle.std.specs.Prelude.{◌≤◌, length};
    ghost use Rattle.memory_workers.specs.Tapes.{Given, tape_of};

    ghost Value = { Given };

    ghost view = { λ t. tape_of t.bytes.items t.at };

    ghost invariant = { λ t. t.at ≤ length t.bytes.items };
}

impl Tape {
    ghost use Rattle.std.specs.Prelude.{◌≡◌, ◌++◌, [], length, min, take, drop, OnOk, OnErr};
    ghost use Rattle.memory_workers.specs.Tapes.{given_more};

    pub(crate) fn new(bytes: Vec<u8>) -> Self
        ensures { result ≡ record { given = []; rest = bytes.items } }
    {
        Tape { bytes, at: 0 }
    }

    /// Adds bytes that come after all others.
    pub(crate) fn add(&mut self, bytes: &[u8]) -> Result<(), AllocError>
        ensures added { OnOk result (self.new ≡ record self.old { rest = self.old.rest ++ bytes.now }) }
        ensures same { OnErr result (self.new ≡ self.old) }
    {
        self.bytes.extend_from_slice(bytes)
    }

    /// Gives the next bytes, as many as there is room for.
    pub(crate) fn give(&mut self, buf: &mut [u8]) -> usize
        ensures count { result ≡ min (length self.old.rest) (length buf.old) }
        ensures bytes { take result buf.new ≡ take result self.old.rest }
        ensures room { length buf.new ≡ length buf.old }
        ensures given { self.new ≡ given_more result self.old }
    {
        let rest = &self.bytes[self.at..];
        let n = rest.len().min(buf.len());
        buf[..n].copy_from_slice(&rest[..n]);
        self.at += n;
        n
    }
}
