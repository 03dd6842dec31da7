//! The SHA-1 of bytes, and its text.

ghost use Rattle.std.specs.Prelude.{◌≡◌, IfOk, option_map, string_bytes};
ghost use Rattle.sha1.specs.Sha1.{sha1};
ghost use Rattle.base_text.specs.Sum.{sum_text, read_sum};

use crate::memory::NoMemory;
use hex::FromHex;
use sha1::Sha1;
use std::alloc::Global;

/// A SHA-1 digest.
#[derive(Clone, Copy, Debug, PartialEq, Eq)]
pub struct Sum(pub [u8; 20]);

impl Sum {
    /// The digest of the bytes.
    pub fn of(bytes: &[u8]) -> Sum
        ensures { result.0 ≡ sha1 bytes.now }
    {
        Sum(Sha1::digest(bytes))
    }

    /// Its text: 40 digits in lower case.
    pub fn hex(&self, alloc: Global) -> Result<String, NoMemory>
        ensures { IfOk result (λ text. string_bytes text ≡ sum_text self.now.0) }
    {
        Ok(hex::encode(alloc, self.0.as_slice())?)
    }

    /// The digest of which this is the text.
    pub fn read(text: &[u8]) -> Option<Sum>
        ensures { option_map (λ s. s.0) result ≡ read_sum text.now }
    {
        let Ok(bytes) = <[u8; 20] as FromHex>::from_hex(text) else {
            return None;
        };
        // `from_hex` takes upper case too.
        let mut again = [0u8; 40];
        if hex::encode_to_slice(bytes.as_slice(), &mut again).is_err() {
            return None;
        }
        if again.as_slice() == text {
            Some(Sum(bytes))
        } else {
            None
        }
    }
}
