// A copy of a file by one process that sums what it writes.

use crate::pace::PIECE;
use base_text::Sum;
use sha1::Sha1;
use std::fs::File;
use std::io;
use std::io::{Read, Write};

/// Copies a file of whole MiB, sums what it writes, and waits until the disk has it.
pub fn copy_with_sum(rt: &HostRuntime, from: &str, to: &str, bytes: u64) -> io::Result<Sum> {
    let mut source = File::open(rt, from)?;
    let mut target = File::create(rt, to)?;
    let mut digest = Sha1::new();
    let mut piece = vec![in rt.alloc(); 0u8; PIECE]?;
    for _ in 0..bytes / PIECE as u64 {
        source.read_exact(&mut piece)?;
        digest.update(&piece);
        target.write_all(&piece)?;
    }
    target.sync_all()?;
    Ok(Sum(digest.finalize()))
}
