// How much a restore has to do, as the manifest that it reads says, for a person to read.
use crate::progress::Progress;

// After these bytes a manifest has the size of a file.
const KEY: &[u8] = b"\"size\":";

/// The sum of the sizes that a manifest lists, which comes in parts.
#[derive(Drop)]
pub struct Total {
    // with how many bytes of the key the text ends so far
    matched: usize,
    // the digits of a size so far
    size: Option<u64>,
    sum: u64,
}

impl Total {
    pub fn new() -> Self {
        Total {
            matched: 0,
            size: None,
            sum: 0,
        }
    }

    /// These bytes of a file were read from a place on: none at its end, where the sum of a manifest is shown, if a
    /// person asked for it.
    pub fn see(&mut self, progress: &Progress, name: &str, at: u64, bytes: &[u8]) {
        if !progress.expects_total() || !is_manifest(name) {
            return;
        }
        if at == 0 {
            *self = Total::new();
        }
        if bytes.is_empty() {
            progress.show_total(self.sum);
        }
        for &byte in bytes {
            self.take(byte);
        }
    }

    fn take(&mut self, byte: u8) {
        if let Some(size) = self.size {
            if byte.is_ascii_digit() {
                let digit = u64::from(byte.wrapping_sub(b'0'));
                self.size = Some(size.saturating_mul(10).saturating_add(digit));
                return;
            }
            self.sum = self.sum.saturating_add(size);
            self.size = None;
        }
        self.matched = if KEY.get(self.matched) == Some(&byte) {
            self.matched.saturating_add(1)
        } else {
            usize::from(byte == b'"')
        };
        if self.matched == KEY.len() {
            self.matched = 0;
            self.size = Some(0);
        }
    }
}

// A manifest, or its copy.
fn is_manifest(name: &str) -> bool {
    name.rsplit_once('/')
        .is_some_and(|(_, last)| last.starts_with("backup.manifest"))
}
