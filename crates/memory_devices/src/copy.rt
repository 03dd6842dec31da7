// Copies a part of some bytes.
ghost use Rattle.std.specs.Prelude.{◌≡◌, ◌<◌, ◌≤◌, ◌+◌, ◌-◌, ◌^◌, length, min};
ghost use Rattle.base_devices.specs.Content.{ReadsPart};

/// Copies bytes from a place on, as many as there is room for.
pub(crate) fn copy_part(bytes: &[u8], at: u64, buf: &mut [u8]) -> usize
    ensures part { ReadsPart bytes.now at (length buf.old) buf.new result }
    ensures count { result ≡ min (length bytes.now - at) (length buf.old) }
    ensures room { result ≤ length buf.old }
    ensures within { at + result < 2 ^ 64 }
{
    if at >= bytes.len() as u64 {
        return 0;
    }
    let rest = &bytes[at as usize..];
    let n = rest.len().min(buf.len());
    buf[..n].copy_from_slice(&rest[..n]);
    n
}
