// What a backup of a running server waits for, as its talk with the server shows, for a person to read on standard
// error.
use std::str;

// The server's functions by which a backup starts and stops.
const START: &[u8] = b"pg_backup_start";

const STOP: &[u8] = b"pg_backup_stop";

// A segment's name has this many digits.
const DIGITS: usize = 24;

/// What is reported about the talk, where it is asked to.
#[derive(Drop)]
pub struct Phase {
    is_shown: bool,
    // whether the server's stop is the next to be received
    stops: bool,
}

impl Phase {
    pub fn new() -> Self {
        Phase {
            is_shown: false,
            stops: false,
        }
    }

    pub fn show(&mut self) {
        self.is_shown = true;
    }

    /// Before these bytes are sent. The start of a backup waits for a checkpoint, which may take minutes.
    pub fn send(&mut self, rt: &HostRuntime, bytes: &[u8]) {
        if self.is_shown && has(bytes, START) {
            let _ = eprintln!(rt; "INFO: waiting for the checkpoint");
        }
        self.stops = has(bytes, STOP);
    }

    /// As these bytes have come. Once the server has stopped its backup, the last segment of it is to be archived.
    pub fn receive(&mut self, rt: &HostRuntime, bytes: &[u8]) {
        if self.is_shown && self.stops {
            if let Some(name) = segment_in(bytes) {
                let _ = eprintln!(rt; "INFO: waiting for segment {name}");
                self.stops = false;
            }
        }
    }
}

fn has(bytes: &[u8], word: &[u8]) -> bool {
    let size = word.len();
    size > 0 && bytes.windows(size).any(|part| part == word)
}

fn segment_in(bytes: &[u8]) -> Option<&str> {
    let found = bytes.windows(DIGITS).find(|part| part
        .iter()
        .all(|digit| matches!(digit, b'0'..=b'9' | b'A'..=b'F')));
    str::from_utf8(found?).ok()
}
