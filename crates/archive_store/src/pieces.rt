// Bytes that are read in pieces.
ghost use Rattle.std.specs.Prelude.{◌≡◌, ◌≤◌, ℕ, List, Option, Some, IfOk, length};
ghost use Rattle.std.proofs.Common.{refl};
ghost use Rattle.base_devices.specs.Cause.{HasCause};
ghost use Rattle.archive_store.specs.ByteSource.{ReadsPiece};

use base_devices::DeviceError;

/// A source of bytes that is read in pieces, as a file of a folder.
pub trait ByteSource<H> {
    /// The bytes, where they are known and it has them.
    ghost bytes: { Self → H → Option (List ℕ) };

    /// How often the source failed.
    ghost faults: { H → ℕ };

    /// The source is unchanged, except for its count of faults.
    ghost same: { H → H → Type 0 };

    /// Bytes from a place on: 0 at their end.
    fn read(&self, device: &mut H, at: u64, buf: &mut [u8]) -> Result<usize, DeviceError>
        ensures bytes { IfOk result (λ n. ReadsPiece (bytes self.now device.old) at buf.old buf.new n) }
        ensures room { IfOk result (λ n. n ≤ length buf.old) }
        ensures same { same device.old device.new }
        ensures cause { HasCause (faults device.old) (faults device.new) result };

    ghost same_self: { (h : H) → same h h };

    ghost same_then: { (g h k : H) → same g h → same h k → same g k };

    ghost bytes_stay: { (it : Self) (g h : H) → same g h → bytes it h ≡ bytes it g };
}

/// The first bytes of a file, and how many it has.
#[derive(Clone, Copy)]
pub struct Prefix<'a> {
    pub bytes: &'a [u8],
    pub length: u64,
}

/// Bytes that are held: nothing is needed to read them.
#[derive(Drop)]
pub struct Held<'a>(pub &'a [u8]);

impl<'a> ByteSource<()> for Held<'a> {
    ghost bytes = { λ it _. Some it.0.now };

    ghost faults = { λ _. 0 };

    ghost same = { λ _ _. Unit {0} };

    fn read(&self, _holder: &mut (), at: u64, buf: &mut [u8]) -> Result<usize, DeviceError> {
        if at >= self.0.len() as u64 {
            return Ok(0);
        }
        let rest = &self.0[at as usize..];
        let count = rest.len().min(buf.len());
        buf[..count].copy_from_slice(&rest[..count]);
        Ok(count)
    }

    ghost same_self = { λ h. tt };

    ghost same_then = { λ g h k p q. tt };

    ghost bytes_stay = { λ it g h p. refl };
}
