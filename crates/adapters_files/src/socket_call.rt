// Connecting to a socket, with a time limit.
ghost use Rattle.std.specs.Prelude.{◌≡◌, Ok, IfOk};

use std::io;
use std::io::ErrorKind;
use std::net::Net;
use std::os::fd::AsRawFd;
use std::os::unix::net::UnixStream;
use std::time::Duration;

// A socket's path, after the two bytes of its family and before the 0 that ends it.
const MOST: usize = 107;

/// A connection to the socket of this path. Connecting, and each read and write of it, waits for at most this long.
pub fn call_socket(
    rt: &HostRuntime,
    path: &str,
    longest: Option<Duration>,
) -> io::Result<UnixStream> {
    if longest.is_none() {
        return UnixStream::connect(rt, path);
    }
    let stream = UnixStream::from(rt.unix_socket()?);
    stream.set_read_timeout(longest)?;
    // the system takes it for connecting too
    stream.set_write_timeout(longest)?;
    timed(connect(&stream, path))?;
    Ok(stream)
}

fn connect(stream: &UnixStream, path: &str) -> io::Result<()> {
    let bytes = path.as_bytes();
    if bytes.len() > MOST || bytes.contains(&0) {
        let text = "path must be shorter than SUN_LEN";
        return Err(io::Error::new(ErrorKind::InvalidInput, text));
    }
    let mut address = [0u8; libc::net::_SS_SIZE];
    address[..2].copy_from_slice(&(libc::net::AF_UNIX as u16).to_ne_bytes());
    address[2..2 + bytes.len()].copy_from_slice(bytes);
    let length = (bytes.len() + 3) as u32;
    for _ in 0..u64::MAX {
        if unsafe { libc::net::connect(stream.as_raw_fd(), &address, length) } == 0 {
            return Ok(());
        }
        let error = os::errno();
        if error != libc::EINTR {
            return Err(io::Error::from_raw_os_error(error));
        }
    }
    Err(io::Error::from(ErrorKind::Interrupted))
}

/// A wait that took too long, as the system reports it of a socket, is an error of its own.
pub fn timed<T: Drop>(done: io::Result<T>) -> io::Result<T>
    ensures { IfOk result (λ v. done ≡ Ok v) }
{
    match done {
        Err(e) if e.kind() == ErrorKind::WouldBlock => Err(io::Error::new(
            ErrorKind::TimedOut,
            "the server says nothing for too long",
        )),
        done => done,
    }
}
