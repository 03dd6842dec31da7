//! Talks with a server, as the PostgreSQL manual lays out their messages.

use crate::same::same;
use crate::texts::SYSTEM;
use memory_devices::MemConnection;
use repo_names::{Lsn, SegSize, Segment};
use server_talk::{
    ServerFault, Session, Started, Stopped, ask_row, check_system, close, open, start_backup,
    stop_backup,
};
use std::alloc::Global;
use std::process::Abort;
use std::test::Fail;

// The start of a session: 9 + 6 bytes.
const START: &[u8] = b"R\0\0\0\x08\0\0\0\0Z\0\0\0\x05I";

const OTHER: &[u8] =
    b"R\0\0\0\x08\0\0\0\0S\0\0\0\x18server_version\016.4\0K\0\0\0\x0c\0\0\x01\x02\0\0\x03\x04Z\0\0\0\x05I\
    N\0\0\0\x05\0T\0\0\0\x06\0\x02S\0\0\0\x08a\0b\0D\0\0\0\x29\0\x02\0\0\0\x136917529027641081858\0\0\0\x0816777216C\0\0\0\x0dSELECT 1\0Z\0\0\0\x05I";

fn connection(
    alloc: Global,
    parts: &[&[u8]],
    cuts: &[u32],
    fail: &[u64],
) -> Result<MemConnection, ServerFault> {
    let mut input: Vec<u8> = Vec::new(alloc);
    for part in parts {
        input.extend_from_slice(part)?;
    }
    Ok(MemConnection::new(
        alloc,
        input,
        Vec::from_slice(alloc, cuts)?,
        Vec::from_slice(alloc, fail)?,
    ))
}

fn start(alloc: Global, connection: &mut MemConnection) -> Result<Session, ServerFault> {
    open(
        alloc,
        connection,
        "/run/postgresql/.s.PGSQL.5432",
        "postgres",
        "postgres",
    )
}

fn system(alloc: Global, input: &[u8], cuts: &[u32]) -> Result<SegSize, ServerFault> {
    let mut connection = connection(alloc, &[input], cuts, &[])?;
    let mut session = start(alloc, &mut connection)?;
    check_system(alloc, &mut connection, &mut session, SYSTEM)
}

fn row(alloc: Global, answer: &[u8], cuts: &[u32]) -> Result<Vec<Option<String>>, ServerFault> {
    let mut connection = connection(alloc, &[START, answer], cuts, &[])?;
    let mut session = start(alloc, &mut connection)?;
    ask_row(alloc, &mut connection, &mut session, "select a, b", 2)
}

const STARTUP: &[u8] = b"\0\0\0\x70\0\x03\0\0user\0postgres\0database\0postgres\0\
    application_name\0pgbackrest\0statement_timeout\00\0idle_session_timeout\00\0\0";

#[test]
fn what_is_sent(rt: HostRuntime) -> Result<(), Fail> {
    let alloc = rt.alloc();
    let mut connection = connection(alloc, &[START], &[1, 2], &[])?;
    let session = start(alloc, &mut connection)?;
    same(&rt, connection.place(), "/run/postgresql/.s.PGSQL.5432");
    same(&rt, STARTUP.len(), 112);
    same(&rt, connection.sent(), STARTUP);
    close(&mut connection, session)?;
    same(
        &rt,
        connection.sent().get(112..),
        Some(b"\x58\0\0\0\x04".as_slice()),
    );
    Ok(())
}

const PIECES: &[&[u32]] = &[
    &[1, 1, 1, 1, 1, 1, 1],
    &[4, 1, 5, 9, 2, 6, 5],
    &[100, 9, 8, 7, 6, 5, 4],
];

#[test]
fn cut_at_every_length(rt: HostRuntime) {
    for n in 0..OTHER.len() {
        let pieces = [1, n as u32, 3, 2, 1, 1, 7];
        let found = system(rt.alloc(), &OTHER[..n], &pieces);
        same(&rt, found, Err(ServerFault::ServerEnded { at: n as u64 }));
    }
}

#[test]
fn cut_in_pieces(rt: HostRuntime) {
    for pieces in PIECES {
        let found = system(rt.alloc(), OTHER, pieces);
        let fault = ServerFault::SystemMismatch {
            kept: SYSTEM,
            found: 6917529027641081858,
        };
        same(&rt, found, Err(fault));
    }
}

// Starts of a talk, and the place of the first fault.
const NO_STARTS: &[(&[u8], u64)] = &[
    (b"X", 0),
    (b"R\0\0\0\x04", 1),
    (b"R\0\0\0\x09\0\0\0\0\0", 9),
    (b"R\0\0\0\x08\0\0\0\0A", 9),
    (b"R\0\0\0\x08\0\0\0\0Z\0\0\0\x04", 10),
];

// The talk that begins so ends with this fault.
fn is_refused(rt: &impl Abort, alloc: Global, input: &[u8], fault: ServerFault) {
    same(rt, system(alloc, input, &[]), Err(fault));
}

#[test]
fn no_starts(rt: HostRuntime) {
    for &(input, at) in NO_STARTS {
        is_refused(&rt, rt.alloc(), input, ServerFault::ServerForm { at });
    }
}

fn said(alloc: Global, code: &str, arguments: &str) -> Result<ServerFault, ServerFault> {
    Ok(ServerFault::ServerSaid {
        code: text(alloc, code)?,
        text: text(alloc, arguments)?,
    })
}

#[test]
fn refused_starts(rt: HostRuntime) -> Result<(), Fail> {
    let alloc = rt.alloc();
    is_refused(&rt, alloc, b"R", ServerFault::ServerEnded { at: 1 });
    let busy = b"E\0\0\0\x19SFATAL\0C55000\0Mbusy\0\0";
    is_refused(&rt, alloc, busy, said(alloc, "55000", "busy")?);
    let silent = b"E\0\0\0\x0bM\xffbC\0\0C";
    is_refused(&rt, alloc, silent, said(alloc, "", "")?);
    let password = b"R\0\0\0\x0c\0\0\0\x05abcd";
    is_refused(
        &rt,
        alloc,
        password,
        ServerFault::AuthUnsupported { code: 5 },
    );
    let long = b"R\0\0\0\x08\0\0\0\0N\x01\0\0\x01";
    is_refused(&rt, alloc, long, ServerFault::TooLong { length: 16777217 });
    Ok(())
}

fn text(alloc: Global, text: &str) -> Result<String, ServerFault> {
    Ok(String::from_str(alloc, text)?)
}

const WELL: &[u8] =
    b"T\0\0\0\x04D\0\0\0\x0f\0\x02\0\0\0\x01x\xff\xff\xff\xffC\0\0\0\x05\0Z\0\0\0\x05I";

#[test]
fn rows_of_two(rt: HostRuntime) -> Result<(), Fail> {
    let columns = row(rt.alloc(), WELL, &[3, 1])?;
    match columns.as_slice() {
        [Some(first), None] => same(&rt, first.as_str(), "x"),
        other => panic!(rt; "{} columns", other.len()),
    }
    Ok(())
}

// Answers to a query of two columns, and the place of the first fault.
const OTHER_ROWS: &[(&[u8], u64)] = &[
    // another count, a length beyond the row, bytes after it, no UTF-8
    (b"T\0\0\0\x04D\0\0\0\x06\0\x03", 25),
    (b"T\0\0\0\x04D\0\0\0\x0b\0\x02\0\0\0\x02x", 27),
    (b"T\0\0\0\x04D\0\0\0\x0f\0\x02\0\0\0\0\0\0\0\0y", 35),
    (b"T\0\0\0\x04D\0\0\0\x0f\0\x02\0\0\0\x01\xff\0\0\0\0", 31),
    // no row, two rows, no end of a text
    (b"T\0\0\0\x04C", 20),
    (b"T\0\0\0\x04D\0\0\0\x0e\0\x02\0\0\0\0\0\0\0\0D", 35),
    (
        b"T\0\0\0\x04D\0\0\0\x0e\0\x02\0\0\0\0\0\0\0\0C\0\0\0\x05x",
        40,
    ),
];

#[test]
fn other_rows(rt: HostRuntime) {
    for &(answer, at) in OTHER_ROWS {
        let found = row(rt.alloc(), answer, &[]);
        same(&rt, found, Err(ServerFault::ServerForm { at }));
    }
}

const STARTED: &[u8] =
    b"T\0\0\0\x04D\0\0\0\x2e\0\x02\0\0\0\x080/200028\0\0\0\x18000000010000000000000002C\0\0\0\x05\0Z\0\0\0\x05I";

const STOPPED: &[u8] =
    b"T\0\0\0\x04D\0\0\0\x3c\0\x04\0\0\0\x080/200100\0\0\0\x18000000010000000000000002\0\0\0\x06LABEL\n\xff\xff\xff\xffC\0\0\0\x05\0Z\0\0\0\x05I";

const SEGMENT: Segment = Segment {
    timeline: 1,
    log: 0,
    seg: 2,
};

#[test]
fn a_backup(rt: HostRuntime) -> Result<(), Fail> {
    let alloc = rt.alloc();
    let mut connection = connection(alloc, &[START, STARTED, STOPPED, STARTED], &[5, 50, 2], &[])?;
    let mut session = start(alloc, &mut connection)?;
    let started = Started {
        lsn: Lsn(0x200028),
        segment: SEGMENT,
    };
    let found = start_backup(alloc, &mut connection, &mut session, true);
    same(&rt, found, Ok(started));
    let stopped = Stopped {
        lsn: Lsn(0x200100),
        segment: SEGMENT,
        label_file: text(alloc, "LABEL\n")?,
        map_file: String::new(alloc),
    };
    let found = stop_backup(alloc, &mut connection, &mut session);
    same(&rt, found, Ok(stopped));
    // Its row is one of no system: 15, 64 and 78 bytes come before this answer, then 5 and 47.
    let found = check_system(alloc, &mut connection, &mut session, SYSTEM);
    same(&rt, found, Err(ServerFault::ServerForm { at: 209 }));
    Ok(())
}

#[test]
fn failing_calls(rt: HostRuntime) -> Result<(), Fail> {
    for call in 0..7 {
        let mut connection = connection(rt.alloc(), &[START], &[], &[call])?;
        let opened = start(rt.alloc(), &mut connection);
        same(
            &rt,
            matches!(&opened, Err(ServerFault::ServerConnection)),
            call < 6,
        );
    }
    Ok(())
}
