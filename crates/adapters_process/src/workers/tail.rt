// The last bytes of a stream.
ghost use Rattle.std.specs.Prelude.{◌≡◌, ◌≤◌, [], take};
ghost use Rattle.base_devices.specs.Links.{last_five};

/// The last five bytes, or all where there are fewer.
#[derive(Drop)]
pub(crate) struct Tail {
    bytes: [u8; 5],
    count: usize,
    ghost within: { count ≤ 5 },
}

// The last five bytes of these.
fn last_part(bytes: &[u8]) -> &[u8]
    ensures { result.now ≡ last_five bytes.now }
{
    &bytes[bytes.len().saturating_sub(5)..]
}

impl Tail {
    ghost use Rattle.std.specs.Prelude.{◌++◌, ◌∷◌};
    ghost use Rattle.adapters_process.specs.Tail.{tail_of};

    pub(crate) fn new() -> Self
        ensures { tail_of result ≡ [] }
    {
        Tail {
            bytes: [0; 5],
            count: 0,
        }
    }

    fn push(&mut self, byte: u8)
        ensures { tail_of self.new ≡ last_five (tail_of self.old ++ byte ∷ []) }
    {
        let [_, second, third, fourth, fifth] = self.bytes;
        if self.count < 5 {
            self.bytes[self.count] = byte;
            self.count += 1;
        } else {
            self.bytes = [second, third, fourth, fifth, byte];
        }
    }

    /// Adds bytes after the others.
    pub(crate) fn add(&mut self, bytes: &[u8])
        ensures { tail_of self.new ≡ last_five (tail_of self.old ++ bytes.now) }
    {
        let last = last_part(bytes);
        for byte in last {
            self.push(*byte);
        }
    }
}
