// The control file of a running server, which is written while it is read.
ghost use Rattle.std.specs.Prelude.{◌≤◌, IfOk, IfSome, length};

use crate::handles::read_some;
use crate::place::Place;
use std::io::ErrorKind;
use std::time::Duration;
use std::{io, thread};

const CONTROL: &str = "global/pg_control";

// A server's has 8192 bytes.
const MOST_BYTES: usize = 65_536;

// In PostgreSQL 15 to 17 this many bytes are summed, and the sum follows them.
const SUMMED: usize = 288;

// The polynomial of CRC-32C, its lowest power first.
const POLYNOMIAL: u32 = 0x82f6_3b78;

const READINGS: usize = 30;

// This many readings in a row that agree count like a sum that is right.
const AGREEING: usize = 10;

const BETWEEN_MS: u64 = 5;

/// The bytes of the control file, of which no write was half done as they were read.
#[derive(Drop)]
pub struct Control {
    bytes: Option<Vec<u8>>,
}

pub fn is_control(name: &str) -> bool {
    name == CONTROL
}

impl Control {
    pub fn new() -> Self {
        Control { bytes: None }
    }

    /// Another root is opened.
    pub fn forget(&mut self) {
        self.bytes = None;
    }

    /// Bytes from a place on: None where it is absent, 0 at its end. All of one reading comes from what was read at its
    /// start.
    pub fn read(&mut self, place: &Place, at: u64, buf: &mut [u8]) -> io::Result<Option<usize>>
        ensures { IfOk result (λ n. IfSome n (λ n. n ≤ length buf.old)) }
    {
        if at == 0 || self.bytes.is_none() {
            self.bytes = None;
            self.bytes = read_settled(place)?;
        }
        match &self.bytes {
            Some(bytes) => Ok(Some(copy_from(bytes, at, buf))),
            None => Ok(None),
        }
    }
}

// The bytes of a file from a place on, as many as there is room for.
fn copy_from(bytes: &[u8], at: u64, buf: &mut [u8]) -> usize
    ensures { result ≤ length buf.old }
{
    let Some(rest) = usize::try_from(at).ok().and_then(|at| bytes.get(at..)) else {
        return 0;
    };
    let count = rest.len().min(buf.len());
    buf[..count].copy_from_slice(&rest[..count]);
    count
}

// Reads it until its sum is right, so that no write was half done, or until many readings in a row agree, a while
// apart: then nobody writes it, whatever it is. One that doesn't come to rest can't be read.
fn read_settled(place: &Place) -> io::Result<Option<Vec<u8>>> {
    let mut before = read_whole(place)?;
    let mut agreeing = 1usize;
    for _ in 1..READINGS {
        match &before {
            Some(bytes) if !has_its_sum(bytes) && agreeing < AGREEING => {}
            _ => return Ok(before),
        }
        thread::sleep(&place.rt, Duration::from_millis(BETWEEN_MS));
        let now = read_whole(place)?;
        agreeing = if now == before {
            agreeing.saturating_add(1)
        } else {
            1
        };
        before = now;
    }
    Err(io::Error::new(ErrorKind::Other, "it doesn't come to rest"))
}

// Whether the sum of a server's control file is right.
fn has_its_sum(bytes: &[u8]) -> bool {
    let Some((summed, rest)) = bytes.split_at_checked(SUMMED) else {
        return false;
    };
    match rest {
        [a, b, c, d, ..] => sum_of(summed) == u32::from_le_bytes([*a, *b, *c, *d]),
        _ => false,
    }
}

// CRC-32C.
fn sum_of(bytes: &[u8]) -> u32 {
    let mut sum = u32::MAX;
    for &byte in bytes {
        sum = with_bits(sum ^ u32::from(byte));
    }
    !sum
}

// What eight bits make of a sum.
fn with_bits(sum: u32) -> u32 {
    let mut sum = sum;
    for _ in 0..8 {
        let odd = sum & 1 == 1;
        sum >>= 1;
        if odd {
            sum ^= POLYNOMIAL;
        }
    }
    sum
}

fn read_whole(place: &Place) -> io::Result<Option<Vec<u8>>> {
    let Some(file) = place.open_start(CONTROL)? else {
        return Ok(None);
    };
    let mut bytes = Vec::new(place.rt.alloc());
    let mut room = [0u8; 8192];
    for _ in 0..MOST_BYTES {
        if bytes.len() >= MOST_BYTES {
            break;
        }
        let count = read_some(&file, bytes.len() as u64, &mut room)?;
        if count == 0 {
            return Ok(Some(bytes));
        }
        bytes.extend_from_slice(&room[..count])?;
    }
    Err(io::Error::new(ErrorKind::InvalidData, "it is too long"))
}
