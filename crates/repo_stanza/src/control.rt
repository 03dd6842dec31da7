// What the control file and the version file say about a cluster.
use base_text::read_decimal;
use thiserror::Error;

/// The oldest major version of PostgreSQL that is supported.
pub const OLDEST_VERSION: u64 = 15;

/// The newest one.
pub const NEWEST_VERSION: u64 = 17;

/// A cluster by its data folder: system identifier, control file version, catalog version and major version.
#[derive(Clone, Copy, Debug, PartialEq, Eq)]
pub struct Control {
    pub system: u64,
    pub control: u32,
    pub catalog: u32,
    pub version: u32,
}

/// Why the two files don't state a cluster.
#[derive(Clone, Copy, Debug, PartialEq, Eq, Error)]
pub enum ControlFault {
    /// The control file has fewer than 16 bytes.
    #[error("control file has {length} bytes")]
    ControlShort { length: u64 },
    /// The version file isn't a number and a newline.
    #[error("PG_VERSION is not valid")]
    VersionText,
    #[error("version {version} is not supported")]
    VersionUnsupported { version: u64 },
}

ghost use Rattle.std.specs.Prelude.{◌≡◌, ◌≤◌, ◌<◌, ◌⊎◌, ◌^◌, ℕ, IfOk, IfErr, length, take, drop, MatchResult};
ghost use Rattle.base_model.specs.Text.{little_endian};
ghost use Rattle.repo_stanza.specs.ControlFile.{IsVersionText, IsSupported, Shows, IsVersionRefused, IsRefused};

// The number of eight bytes, the lowest first.
fn read_u64(bytes: [u8; 8]) -> u64
    ensures { result ≡ little_endian bytes }
{
    u64::from_le_bytes(bytes)
}

// The number of four bytes, the lowest first.
fn read_u32(bytes: [u8; 4]) -> u32
    ensures { result ≡ little_endian bytes }
{
    u32::from_le_bytes(bytes)
}

// The major version of a version file.
fn read_version(text: &[u8]) -> Result<u32, ControlFault>
    ensures ok { IfOk result (λ n. IsVersionText n text.now × IsSupported n) }
    ensures err { IfErr result (IsVersionRefused text.now) }
{
    let Some((b'\n', digits)) = text.split_last() else {
        return Err(ControlFault::VersionText);
    };
    match read_decimal(digits) {
        Some(version @ OLDEST_VERSION..=NEWEST_VERSION) => Ok(version as u32),
        Some(version) => Err(ControlFault::VersionUnsupported { version }),
        None => Err(ControlFault::VersionText),
    }
}

/// Reads the identity of a cluster from the bytes of `global/pg_control` and of `PG_VERSION`. Its version is one that
/// is supported.
pub fn read_control(control: &[u8], version: &[u8]) -> Result<Control, ControlFault>
    ensures known { IfOk result (Shows control.now version.now) }
    ensures refused { IfErr result (IsRefused control.now version.now) }
{
    let [
        s0,
        s1,
        s2,
        s3,
        s4,
        s5,
        s6,
        s7,
        p0,
        p1,
        p2,
        p3,
        c0,
        c1,
        c2,
        c3,
        ..
    ] = control
    else {
        return Err(ControlFault::ControlShort {
            length: control.len() as u64,
        });
    };
    let version = read_version(version)?;
    Ok(Control {
        system: read_u64([*s0, *s1, *s2, *s3, *s4, *s5, *s6, *s7]),
        control: read_u32([*p0, *p1, *p2, *p3]),
        catalog: read_u32([*c0, *c1, *c2, *c3]),
        version,
    })
}
