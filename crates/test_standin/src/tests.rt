//! The answers, as the client of the talk reads them.

use crate::answers::{answer, greeting};
use crate::serve::serve;
use memory_devices::MemConnection;
use repo_names::{Lsn, SegSize, Segment};
use server_talk::{
    ServerFault, Started, Stopped, check_system, close, open, start_backup, stop_backup,
};
use std::alloc::Global;
use std::fmt::Debug;
use std::io;
use std::io::{Cursor, Read, Write};
use std::process::Abort;
use std::test::Fail;

const SYSTEM: &str =
    "select system_identifier::text, (select setting from pg_catalog.pg_settings where name = 'wal_segment_size') from pg_catalog.pg_control_system()";

const START: &str =
    "select lsn::text, pg_catalog.pg_walfile_name(lsn) from pg_catalog.pg_backup_start('pgBackRest backup', true) as lsn";

const STOP: &str =
    "select lsn::text, pg_catalog.pg_walfile_name(lsn), labelfile, spcmapfile from pg_catalog.pg_backup_stop(false)";

// A connection that has all that the client sends.
#[derive(Drop)]
struct Stream {
    input: Cursor<Vec<u8>>,
    output: Vec<u8>,
}

impl Read for Stream {
    fn read(&mut self, buf: &mut [u8]) -> io::Result<usize> {
        self.input.read(buf)
    }
}

impl Write for Stream {
    fn write(&mut self, buf: &[u8]) -> io::Result<usize> {
        self.output.write(buf)
    }

    fn flush(&mut self) -> io::Result<()> {
        Ok(())
    }
}

fn serve_bytes(alloc: Global, said: &[u8]) -> Result<(bool, Vec<u8>), Fail> {
    let mut stream = Stream {
        input: Cursor::new(Vec::from_slice(alloc, said)?),
        output: Vec::new(alloc),
    };
    let done = serve(alloc, &mut stream).is_ok();
    Ok((done, stream.output))
}

fn same<T: PartialEq + Debug + Drop>(rt: &impl Abort, found: T, want: T) {
    assert!(rt; found == want, "found {found:?}, want {want:?}");
}

// All that a client of the three queries is given.
fn all_given(alloc: Global) -> io::Result<Vec<u8>> {
    let mut given = greeting(alloc)?;
    for text in [SYSTEM, START, STOP] {
        given.extend_from_slice(&answer(alloc, text)?)?;
    }
    Ok(given)
}

const SEGMENT: Segment = Segment {
    timeline: 1,
    log: 0,
    seg: 2,
};

fn started() -> Started {
    Started {
        lsn: Lsn(0x200028),
        segment: SEGMENT,
    }
}

fn stopped(alloc: Global) -> Result<Stopped, ServerFault> {
    Ok(Stopped {
        lsn: Lsn(0x200100),
        segment: SEGMENT,
        label_file: String::from_str(alloc, "LABEL\n")?,
        map_file: String::new(alloc),
    })
}

// The client's side of the talk.
fn talk(rt: &impl Abort, alloc: Global, connection: &mut MemConnection) -> Result<(), ServerFault> {
    let mut session = open(alloc, connection, "socket", "postgres", "postgres")?;
    let size = check_system(alloc, connection, &mut session, 6917529027641081857)?;
    same(rt, size, SegSize(1048576));
    let found = start_backup(alloc, connection, &mut session, true)?;
    same(rt, found, started());
    let found = stop_backup(alloc, connection, &mut session)?;
    same(rt, found, stopped(alloc)?);
    close(connection, session)
}

#[test]
fn a_client_is_served(rt: HostRuntime) -> Result<(), Fail> {
    let alloc = rt.alloc();
    let given = all_given(alloc)?;
    let mut connection = MemConnection::new(
        alloc,
        given.clone()?,
        Vec::new(alloc),
        Vec::new(alloc),
    );
    talk(&rt, alloc, &mut connection)?;
    let (done, served) = serve_bytes(alloc, connection.sent())?;
    same(&rt, done, true);
    same(&rt, served, given);
    Ok(())
}

// What is sent after the start, whether the talk succeeds, and how many bytes are answered, the start included.
const SAID: &[(&[u8], bool, usize)] = &[
    // no end, another kind, a length that is too short or too great, no 0 at the end of a text
    (b"", false, 15),
    (b"X\0\0\0\x04", true, 15),
    (b"P\0\0\0\x04", false, 15),
    (b"Q\0\0\0\x03", false, 15),
    (b"Q\0\x01\0\0", false, 15),
    (b"Q\0\0\0\x05x", false, 15),
    // another query
    (b"Q\0\0\0\x05\0X\0\0\0\x04", true, 39),
];

#[test]
fn other_clients_are_refused(rt: HostRuntime) -> Result<(), Fail> {
    let alloc = rt.alloc();
    for &(said, ends, count) in SAID {
        let mut all = Vec::from_slice(alloc, b"\0\0\0\x08\0\x03\0\0")?;
        all.extend_from_slice(said)?;
        let (done, served) = serve_bytes(alloc, &all)?;
        same(&rt, done, ends);
        same(&rt, served.len(), count);
    }
    Ok(())
}
