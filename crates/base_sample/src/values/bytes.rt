// The paths and the bytes of a sample cluster.
ghost use Rattle.std.specs.Prelude.{◌≡◌, ◌+◌, ◌<◌, ◌^◌, ◌++◌, IfOk, OnOk, length, string_bytes, vec_len};
ghost use Rattle.base_sample.specs.Bytes.{relation_path, pattern, relation_bytes, zeros, control_bytes, segment_bytes};

use std::alloc::{AllocError, Global};

/// The system identifier of the cluster.
pub const SYSTEM: u64 = 6917529027641081857;

pub const VERSION_PATH: &str = "PG_VERSION";

pub const CONTROL_PATH: &str = "global/pg_control";

/// The folders, each before what lies in it.
pub const FOLDERS: [&str; 3] = ["base", "base/5", "global"];

pub const VERSION_BYTES: &[u8] = b"16\n";

const CONTROL_PREFIX: [u8; 16] = [1, 0, 0, 0, 0, 0, 0, 96, 20, 5, 0, 0, 255, 245, 14, 12];

const SEGMENT_PREFIX: [u8; 36] = [
    0, 0, 2, 0, 0, 0, 0, 0, 0, 0, 0, 0, 0, 0, 0, 0, 0, 0, 0, 0, 0, 0, 0, 0, 1, 0, 0, 0, 0, 0, 0,
    96, 0, 0, 16, 0,
];

/// The path of the relation file of this place.
#[tactic(auto, unfolding(crate::specs::Bytes::relation_path))]
pub fn relation_path(alloc: Global, place: u32) -> Result<String, AllocError>
    requires { place < 2 ^ 31 }
    ensures { IfOk result (λ path. string_bytes path ≡ relation_path place) }
{
    let number = 16384 + place;
    format!(in alloc; "base/5/{number}")
}

// The first bytes of a relation file.
#[tactic(auto, unfolding(crate::specs::Bytes::pattern))]
fn pattern(alloc: Global, place: u32, count: u32) -> Result<Vec<u8>, AllocError>
    requires place { place < 2 ^ 31 }
    requires count { count < 2 ^ 31 }
    ensures { IfOk result (λ bytes. bytes.items ≡ pattern place count) }
{
    let mut bytes = Vec::new(alloc);
    for j in 0..count {
        bytes.push(((place + j) % 251) as u8)?;
    }
    Ok(bytes)
}

/// The bytes of the relation file of this place.
#[tactic(auto, unfolding(crate::specs::Bytes::relation_bytes))]
pub fn relation_bytes(alloc: Global, place: u32) -> Result<Vec<u8>, AllocError>
    requires { place < 2 ^ 31 }
    ensures { IfOk result (λ bytes. bytes.items ≡ relation_bytes place) }
{
    pattern(alloc, place, place % 17 * 512)
}

/// This many zeros.
#[tactic(auto, unfolding(crate::specs::Bytes::zeros))]
pub fn zeros(alloc: Global, count: usize) -> Result<Vec<u8>, AllocError>
    ensures { IfOk result (λ bytes. bytes.items ≡ zeros count) }
{
    vec![in alloc; 0; count]
}

// These bytes, and this many zeros after them.
fn padded(alloc: Global, prefix: &[u8], count: usize) -> Result<Vec<u8>, AllocError>
    requires { length prefix.now + count < 2 ^ 32 }
    ensures { IfOk result (λ bytes. bytes.items ≡ prefix.now ++ zeros count) }
{
    let rest = zeros(alloc, count)?;
    let mut bytes = Vec::with_capacity(alloc, prefix.len() + count)?;
    bytes.extend_from_slice(prefix)?;
    bytes.extend_from_slice(&rest)?;
    Ok(bytes)
}

/// The bytes of the control file.
#[tactic(auto, unfolding(crate::specs::Bytes::control_bytes))]
pub fn control_bytes(alloc: Global) -> Result<Vec<u8>, AllocError>
    ensures { IfOk result (λ bytes. bytes.items ≡ control_bytes) }
{
    padded(alloc, &CONTROL_PREFIX, 8176)
}

/// The bytes of a segment with this last byte.
#[tactic(auto, unfolding(crate::specs::Bytes::segment_bytes))]
pub fn segment_bytes(alloc: Global, last: u8) -> Result<Vec<u8>, AllocError>
    ensures { IfOk result (λ bytes. bytes.items ≡ segment_bytes last) }
{
    let mut bytes = padded(alloc, &SEGMENT_PREFIX, 1048539)?;
    bytes.push(last)?;
    Ok(bytes)
}
