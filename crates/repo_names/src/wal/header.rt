// The long header of a segment's first page (PostgreSQL manual, "WAL Internals").
use crate::wal::sizes::read_seg_size;
use base_model::SegSize;
use thiserror::Error;

/// Why bytes aren't a segment of a cluster.
#[derive(Clone, Copy, Debug, PartialEq, Eq, Error)]
pub enum HeaderFault {
    /// There are fewer than 40 bytes, or no flag of a long header; with fewer than 4 bytes, `info` is 0.
    #[error("WAL header is not valid")]
    Form { length: u64, info: u16 },
    /// The size that the header gives is no segment's, or not the number of bytes.
    #[error("segment size {known}, found {found} bytes")]
    Size { known: u32, found: u64 },
    /// The system identifier isn't the one that was asked for.
    #[error("stanza has system {kept}, WAL has system {found}")]
    System { kept: u64, found: u64 },
}

ghost use Rattle.std.specs.Prelude.{◌≡◌, ◌⊎◌, ◌+◌, ◌≤◌, length, take, drop, IfOk, IfErr};
ghost use Rattle.repo_names.specs.Header.{number_at, page_info, EachThatBegins, IsOfSystem, IsRefused};

const LONG_HEADER: u16 = 0x0002;

// The number of two bytes from a place on, the lowest first.
fn u16_at(bytes: &[u8], place: usize) -> u16
    requires { place + 2 ≤ length bytes.now }
    ensures { result ≡ number_at place 2 bytes.now }
{
    u16::from_le_bytes([bytes[place], bytes[place + 1]])
}

fn u32_at(bytes: &[u8], place: usize) -> u32
    requires { place + 4 ≤ length bytes.now }
    ensures { result ≡ number_at place 4 bytes.now }
{
    u32::from_le_bytes([
        bytes[place],
        bytes[place + 1],
        bytes[place + 2],
        bytes[place + 3],
    ])
}

fn u64_at(bytes: &[u8], place: usize) -> u64
    requires { place + 8 ≤ length bytes.now }
    ensures { result ≡ number_at place 8 bytes.now }
{
    u64::from_le_bytes([
        bytes[place],
        bytes[place + 1],
        bytes[place + 2],
        bytes[place + 3],
        bytes[place + 4],
        bytes[place + 5],
        bytes[place + 6],
        bytes[place + 7],
    ])
}

// The page's flags.
fn page_info(bytes: &[u8]) -> u16
    ensures { result ≡ page_info bytes.now }
{
    if bytes.len() < 4 { 0 } else { u16_at(bytes, 2) }
}

/// The size of the segment that begins with these bytes and has this many, of the cluster with this system identifier.
pub fn check_prefix(prefix: &[u8], count: u64, system: u64) -> Result<SegSize, HeaderFault>
    requires long { (40 ≤ length prefix.now) ⊎ (length prefix.now ≡ count) }
    requires within { length prefix.now ≤ count }
    ensures valid { IfOk result (λ size. EachThatBegins prefix.now count (λ bytes. IsOfSystem bytes system size.0)) }
    ensures refused { IfErr result (λ fault. EachThatBegins prefix.now count (λ bytes. IsRefused bytes system fault)) }
{
    let info = page_info(prefix);
    if count < 40 || info & LONG_HEADER == 0 {
        return Err(HeaderFault::Form {
            length: count,
            info,
        });
    }
    let known = u32_at(prefix, 32);
    let whole = u64::from(known);
    let size = match read_seg_size(whole) {
        Some(size) if whole == count => size,
        _ => return Err(HeaderFault::Size {
            known,
            found: count,
        }),
    };
    let found = u64_at(prefix, 24);
    if found != system {
        return Err(HeaderFault::System {
            kept: system,
            found,
        });
    }
    Ok(size)
}

/// The size of the segment whose bytes these are, of the cluster with this system identifier.
pub fn check_header(bytes: &[u8], system: u64) -> Result<SegSize, HeaderFault>
    ensures valid { IfOk result (λ size. IsOfSystem bytes.now system size.0) }
    ensures refused { IfErr result (IsRefused bytes.now system) }
{
    check_prefix(bytes, bytes.len() as u64, system)
}
