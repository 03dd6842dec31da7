// Talks of online backups.
ghost use Rattle.std.specs.Prelude.{IfOk};
ghost use Rattle.base_model.specs.ManifestText.{IsSegSize, IsWalPart};

use crate::same::{same, well};
use crate::serving::{add_row, greeting, server};
use base_model::Span;
use memory_devices::MemConnection;
use repo_names::{Lsn, SegSize, Segment};
use server_talk::{Begun, Finished, OnlineFault, ServerFault, abandon, start, stop};
use std::alloc::{AllocError, Global};
use std::process::Abort;

const SYSTEM: u64 = 6917529027641081857;

const SYSTEM_ROW: &[&str] = &["6917529027641081857", "1048576"];

const FIRST: &str = "000000010000000000000002";

// The last message: the end of a session.
const END: &[u8] = b"\x58\0\0\0\x04";

fn segment(timeline: u32, log: u32, seg: u32) -> Segment {
    Segment { timeline, log, seg }
}

// A backup is started at a server that answers so.
fn begin(alloc: Global, connection: &mut MemConnection) -> Result<Begun, OnlineFault>
    ensures { IfOk result (λ b. IsSegSize b.size.0) }
{
    start(
        alloc,
        connection,
        "/run/postgresql/.s.PGSQL.5432",
        "postgres",
        "postgres",
        SYSTEM,
        true,
    )
}

// The last bytes that a server was sent are the end.
fn is_ended(rt: &impl Abort, connection: &MemConnection) {
    let sent = connection.sent();
    same(rt, sent.len() > 5, true);
    same(rt, sent.get(sent.len().saturating_sub(5)..), Some(END));
}

// A server that reports its system, and where a backup starts.
fn starting(alloc: Global, first: &str) -> Result<Vec<u8>, AllocError> {
    let mut bytes = greeting(alloc)?;
    add_row(alloc, &mut bytes, SYSTEM_ROW)?;
    add_row(alloc, &mut bytes, &["0/200028", first])?;
    Ok(bytes)
}

// .. and where it stops.
fn stopping<'a>(
    alloc: Global,
    first: &str,
    last: &'a str,
    map: &'a str,
) -> Result<Vec<u8>, AllocError> {
    let mut bytes = starting(alloc, first)?;
    add_row(alloc, &mut bytes, &["0/200100", last, "LABEL\n", map])?;
    Ok(bytes)
}

/// A backup that starts and stops in these segments.
pub(crate) fn whole(
    rt: &impl Abort,
    alloc: Global,
    first: &str,
    last: &str,
    map: &str,
) -> Result<Finished, OnlineFault>
    ensures { IfOk result (λ f. IsWalPart f.wal) }
{
    let bytes = well(rt, stopping(alloc, first, last, map));
    let mut connection = well(rt, server(alloc, bytes));
    let backup = begin(alloc, &mut connection)?;
    let done = stop(alloc, &mut connection, backup);
    is_ended(rt, &connection);
    done
}

#[test]
fn a_backup_is_started(rt: HostRuntime) {
    let alloc = rt.alloc();
    let bytes = well(&rt, starting(alloc, FIRST));
    let mut connection = well(&rt, server(alloc, bytes));
    let backup = well(&rt, begin(alloc, &mut connection));
    same(&rt, connection.place(), "/run/postgresql/.s.PGSQL.5432");
    same(&rt, backup.size, SegSize(1048576));
    same(&rt, backup.from, Lsn(0x200028));
    same(&rt, backup.segment, segment(1, 0, 2));
    let sent = connection.sent().len();
    well(&rt, abandon(&mut connection, backup));
    same(&rt, connection.sent().len(), sent.saturating_add(5));
    is_ended(&rt, &connection);
}

#[test]
fn a_backup_is_stopped(rt: HostRuntime) {
    let done = well(&rt, whole(&rt, rt.alloc(), FIRST, FIRST, ""));
    let span = Span {
        start: segment(1, 0, 2),
        stop: segment(1, 0, 2),
    };
    same(&rt, done.wal.span, span);
    same(&rt, done.wal.from, Lsn(0x200028));
    same(&rt, done.wal.to, Lsn(0x200100));
    same(&rt, done.wal.size, SegSize(1048576));
    same(&rt, done.label_file.as_str(), "LABEL\n");
}

// The names of a first and a last segment of 1 MiB that don't belong together.
const WRONG: &[(&str, &str)] = &[
    // another timeline, and a stop before the start
    ("000000010000000000000002", "000000020000000000000002"),
    ("000000010000000000000002", "000000010000000000000001"),
    // a log has 4,096 of them, of which the last is FFF
    ("000000010000000000001000", "000000010000000100000001"),
    ("000000010000000000000002", "000000010000000000001000"),
    // 65,537 segments follow the first
    ("000000010000000000000002", "000000010000001000000003"),
];

#[test]
fn segments_that_do_not_belong_together(rt: HostRuntime) {
    for &(first, last) in WRONG {
        let found = whole(&rt, rt.alloc(), first, last, "");
        assert!(&rt;
            matches!(found, Err(OnlineFault::SpanWrong { .. })),
            "{first} to {last}"
        );
    }
    // 65,536 may follow.
    let last = "000000010000001000000002";
    let done = well(&rt, whole(&rt, rt.alloc(), FIRST, last, ""));
    same(&rt, done.wal.span.stop, segment(1, 16, 2));
}

#[test]
fn tablespaces_come_first(rt: HostRuntime) {
    let last = "000000020000000000000002";
    let found = whole(&rt, rt.alloc(), FIRST, last, "16400 /mnt/disk\n");
    assert!(&rt; matches!(found, Err(OnlineFault::TablespaceMap)));
}

// The server that answers so refuses the backup for this, and its session is ended.
fn is_refused(rt: &impl Abort, alloc: Global, bytes: Vec<u8>, fault: ServerFault) {
    let mut connection = well(rt, server(alloc, bytes));
    match begin(alloc, &mut connection) {
        Err(found) => same(rt, found, OnlineFault::Server(fault)),
        Ok(_) => panic!(rt; "a backup was started"),
    }
    is_ended(rt, &connection);
}

#[test]
fn a_session_that_is_refused_is_ended(rt: HostRuntime) {
    let alloc = rt.alloc();
    let mut other = well(&rt, greeting(alloc));
    well(&rt, add_row(alloc, &mut other, &["7", "1048576"]));
    let fault = ServerFault::SystemMismatch {
        kept: SYSTEM,
        found: 7,
    };
    is_refused(&rt, alloc, other, fault);
    // 15 bytes of the start.
    let silent = well(&rt, greeting(alloc));
    is_refused(&rt, alloc, silent, ServerFault::ServerEnded { at: 15 });
}
