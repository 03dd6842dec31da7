// Names with bytes, from texts.
ghost use Rattle.std.specs.Prelude.{◌≡◌, IfOk, map};
ghost use Rattle.memory_devices.specs.Image.{named};

use std::alloc::{AllocError, Global};

/// Names with their bytes, as a disk in memory is given them.
pub fn named_bytes(
    alloc: Global,
    names: &[(&str, &[u8])],
) -> Result<Vec<(String, Vec<u8>)>, AllocError>
    ensures { IfOk result (λ given. named given.items ≡ map (λ x. (x.0.now, x.1.now)) names.now) }
{
    let mut given = Vec::new(alloc);
    for (name, bytes) in names {
        given.push((
            String::from_str(alloc, name)?,
            Vec::from_slice(alloc, bytes)?,
        ))?;
    }
    Ok(given)
}
