// The connection to the server, on a Unix socket.
ghost use Rattle.std.specs.Prelude.{◌≡◌, ◌≤◌, None, IfOk, OnOk, length, string_bytes};

use crate::phase::Phase;
use crate::place::call_of;
use crate::socket_call::{call_socket, timed};
use adapters_process::{Faults, read_some};
use base_devices::{DeviceError, ServerConnection};
use std::io::{ErrorKind, Write};
use std::os::unix::fs::MetadataExt;
use std::os::unix::net::UnixStream;
use std::time::Duration;
use std::{fs, io};

/// A connection to a socket of the system's files, closed as the next one is opened. What the server will send is
/// unknown.
#[derive(Drop)]
pub struct RealConnection {
    rt: HostRuntime,
    place: String,
    stream: Option<UnixStream>,
    // of each wait
    longest: Option<Duration>,
    owner: Option<u32>,
    phase: Phase,
    faults: Faults,
}

impl RealConnection {
    pub fn new(rt: HostRuntime) -> Self
        ensures { result.faults.count ≡ 0 }
    {
        RealConnection {
            place: String::new(rt.alloc()),
            rt,
            stream: None,
            longest: None,
            owner: None,
            phase: Phase::new(),
            faults: Faults::new(),
        }
    }

    /// From now on connecting, each write and each read waits for at most this long. 0 is for ever.
    pub fn set_timeout(&mut self, seconds: u64) {
        self.longest = if seconds == 0 {
            None
        } else {
            Some(Duration::from_secs(seconds))
        };
    }

    /// From now on a socket is opened only where it belongs to this user, or to root. The process at its other end
    /// can't be asked.
    pub fn expect_owner(&mut self, user: u32) {
        self.owner = Some(user);
    }

    /// Shows on standard error what a backup waits for.
    pub fn show_waiting(&mut self) {
        self.phase.show();
    }

    /// What failed last, for a person to read.
    pub fn last_failure(&self) -> Option<&str> {
        self.faults.last()
    }

    /// How often a call failed.
    pub fn faults(&self) -> u64
        ensures { result ≡ (⟦<RealConnection as ServerConnection>⟧.state self.now).faults }
    {
        self.faults.count
    }

    fn open_place(&mut self, path: &str) -> io::Result<()>
        ensures place { OnOk result (string_bytes self.new.place ≡ path.now) }
        ensures faults { self.new.faults ≡ self.old.faults }
    {
        self.stream = None;
        self.place = String::from_str(self.rt.alloc(), path)?;
        self.demand_owner(path)?;
        self.stream = Some(call_socket(&self.rt, path, self.longest)?);
        Ok(())
    }

    fn demand_owner(&self, path: &str) -> io::Result<()> {
        let Some(owner) = self.owner else {
            return Ok(());
        };
        let found = fs::metadata(&self.rt, path)?.uid();
        if found == owner || found == 0 {
            return Ok(());
        }
        let text = "the socket belongs to another user than the data folder";
        Err(io::Error::new(ErrorKind::PermissionDenied, text))
    }

    fn receive_reply(&mut self, buf: &mut [u8]) -> io::Result<usize>
        ensures room { IfOk result (λ n. n ≤ length buf.old) }
        ensures same { (self.new.place ≡ self.old.place) × (self.new.faults ≡ self.old.faults) }
    {
        let Some(stream) = &mut self.stream else {
            return Err(io::Error::from(ErrorKind::NotConnected));
        };
        let count = timed(read_some(stream, buf))?;
        self.phase.receive(&self.rt, &buf[..count]);
        Ok(count)
    }
}

impl ServerConnection for RealConnection {
    ghost state = { λ w. record {
      pending = None;
      sent = None;
      place = string_bytes w.place;
      faults = w.faults.count;
    } };

    fn open(&mut self, path: &str) -> Result<(), DeviceError> {
        let done = self.open_place(path);
        self.faults
            .counted(&call_of(&self.rt, "opening of", path), done)
    }

    fn send(&mut self, bytes: &[u8]) -> Result<(), DeviceError> {
        self.phase.send(&self.rt, bytes);
        let done = match &mut self.stream {
            Some(stream) => timed(stream.write_all(bytes)),
            None => Err(io::Error::from(ErrorKind::NotConnected)),
        };
        self.faults
            .counted(&call_of(&self.rt, "writing to", &self.place), done)
    }

    fn receive(&mut self, buf: &mut [u8]) -> Result<usize, DeviceError> {
        let done = self.receive_reply(buf);
        self.faults
            .counted(&call_of(&self.rt, "reading of", &self.place), done)
    }
}
