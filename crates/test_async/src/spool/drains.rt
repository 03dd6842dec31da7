// A drain, and what the spool then says; digests by `sha1sum`.
use crate::spool::devices::{HISTORY, ID, SYSTEM, empty, folder, segment, segment_bytes};
use crate::spool::same::{same, well};
use archive_spool::{Asked, ask};
use base_model::ArchiveName;
use base_text::{NoMemory, Sum};
use cmd_archive_push_async::{Drained, drain};
use memory_devices::MemDisk;
use std::alloc::Global;
use std::process::Abort;

// What the spool says of a file with the sum of these bytes, as a text.
fn said(
    rt: &impl Abort,
    alloc: Global,
    spool: &mut MemDisk,
    name: &ArchiveName,
    bytes: &[u8],
) -> Result<String, NoMemory> {
    match well(rt, ask(alloc, spool, "main", name, &Sum::of(bytes))) {
        Asked::Done => Ok(String::from_str(alloc, "done")?),
        Asked::NotYet => Ok(String::from_str(alloc, "not yet")?),
        Asked::Reported { code, text } => Ok(format!(in alloc; "[{code}] {text}")?),
    }
}

fn check_said(
    rt: &impl Abort,
    alloc: Global,
    spool: &mut MemDisk,
    name: &ArchiveName,
    bytes: &[u8],
    want: &str,
) {
    let said = well(rt, said(rt, alloc, spool, name, bytes));
    same(rt, said.as_str(), want);
}

const OTHER: &str = "[33] stanza has system 6917529027641081857, WAL has system 5";

#[test]
fn drains_what_is_ready(rt: HostRuntime) {
    let alloc = rt.alloc();
    let third = well(&rt, segment_bytes(alloc, SYSTEM, 3));
    let fourth = well(&rt, segment_bytes(alloc, SYSTEM, 4));
    let fifth = well(&rt, segment_bytes(alloc, 5, 5));
    let files = [
        ("000000010000000000000003", third.as_slice()),
        ("000000010000000000000004", fourth.as_slice()),
        ("000000010000000000000005", fifth.as_slice()),
        ("00000002.history", b"hello".as_slice()),
    ];
    let mut repo = well(&rt, empty(alloc, Vec::new(alloc)));
    let mut spool = well(&rt, empty(alloc, Vec::new(alloc)));
    let mut tree = well(&rt, folder(alloc, &files, Vec::new(alloc)));
    let drained = well(
        &rt,
        drain(alloc, &mut repo, &mut spool, &mut tree, "main", ID, SYSTEM),
    );
    let want = Drained {
        pushed: 3,
        refused: 1,
    };
    same(&rt, drained, want);
    check_said(&rt, alloc, &mut spool, &segment(3), &third, "done");
    check_said(&rt, alloc, &mut spool, &segment(3), &third, "not yet");
    check_said(&rt, alloc, &mut spool, &segment(4), &third, "not yet");
    check_said(&rt, alloc, &mut spool, &segment(4), &fourth, "not yet");
    check_said(&rt, alloc, &mut spool, &segment(5), &fifth, OTHER);
    check_said(&rt, alloc, &mut spool, &segment(5), &fifth, "not yet");
    check_said(&rt, alloc, &mut spool, &HISTORY, b"hello", "done");
    same(&rt, repo.faulty_calls(), 0);
    same(&rt, spool.faulty_calls(), 0);
}
