// Segments are fetched after one of the least size.
use crate::prefetched::devices::{ID, segment};
use cmd_archive_get::GetFault;
use cmd_archive_get_async::fetch_ahead;
use cmd_types::Halt;
use memory_devices::MemDisk;
use repo_names::{read_seg_size, segments_per_log};
use std::alloc::Global;
use std::process::Abort;

/// Fetches after the segment of this number, at most this many bytes of segments.
pub(crate) fn fetch_after(
    rt: &impl Abort,
    alloc: Global,
    repo: &mut MemDisk,
    spool: &mut MemDisk,
    after: u32,
    queue: u64,
) -> Result<u64, Halt<GetFault>> {
    let size = read_seg_size(1048576).expect(rt, "it is the least size");
    assert!(rt;
        after < segments_per_log(size),
        "no log has segment {after}"
    );
    fetch_ahead(
        alloc,
        repo,
        spool,
        "main",
        &ID,
        &segment(after),
        size,
        queue,
    )
}
