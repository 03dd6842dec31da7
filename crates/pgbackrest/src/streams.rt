// The standard streams: no file that is opened later gets the number of one that was closed.
use std::fs;
use std::fs::{File, OpenOptions};
use std::os::fd::AsRawFd;
use std::os::unix::fs::MetadataExt;

const LAST_STREAM: i32 = 2;

const STREAMS: [&str; 3] = ["/proc/self/fd/0", "/proc/self/fd/1", "/proc/self/fd/2"];

/// Opens each standard stream that is closed on /dev/null. They stay open as long as the result is kept.
pub fn open_streams(rt: &HostRuntime) -> Vec<File> {
    let mut streams = Vec::new(rt.alloc());
    for _ in 0..=LAST_STREAM {
        let mut how = OpenOptions::new();
        match how.read(true).write(true).open(rt, "/dev/null") {
            // (the lowest number that is free)
            Ok(stream) if stream.as_raw_fd() <= LAST_STREAM => {
                let _ = streams.push(stream);
            }
            _ => break,
        }
    }
    streams
}

/// Whether each standard stream is /dev/null, as this program starts what works in the background. A person who calls
/// that by hand sees its lines.
pub fn has_no_streams(rt: &HostRuntime) -> bool {
    STREAMS.iter().all(|stream| is_null(rt, *stream))
}

fn is_null(rt: &HostRuntime, path: &str) -> bool {
    match (fs::metadata(rt, path), fs::metadata(rt, "/dev/null")) {
        (Ok(seen), Ok(null)) => seen.dev() == null.dev() && seen.ino() == null.ino(),
        _ => false,
    }
}
