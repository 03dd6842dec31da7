// What is checked of a frame before it is taken.
ghost use Rattle.std.specs.Prelude.{◌≡◌, ◌↔◌, ◌≤◌, IfSome, IfNone, IsTrue, IsSomeAnd, slice_get};
ghost use Rattle.worker_protocol.specs.Views.{job_of};
ghost use Rattle.worker_pool.specs.Receivings.{MayFollow, EndsRight, IsOfTree, IsKnown, IsOfFrame};

use crate::replies::receiving::Receiving;
use base_text::Sum;
use worker_protocol::{Job, JobKind, LostCause, Root};

/// Whether this many more bytes may follow what was received of the item.
pub(crate) fn may_follow(job: &Job, receiving: &Receiving, more: u64) -> bool
    ensures { IsTrue result ↔ MayFollow (job_of job.now) receiving.now more }
{
    let Some(item) = job.items.get(receiving.item as usize) else {
        return false;
    };
    job.kind == JobKind::Read
        && receiving.full
        && receiving.count <= item.size
        && more <= item.size - receiving.count
}

/// Whether the item is one of the data folder, of which nothing was received.
pub(crate) fn may_be_absent(job: &Job, receiving: &Receiving) -> bool
    ensures { IsTrue result ↔ (receiving.now.count ≡ 0) × IsOfTree (job_of job.now) receiving.now.item }
{
    match job.items.get(receiving.item as usize) {
        Some(item) => receiving.count == 0 && item.root == Root::DataFolder,
        None => false,
    }
}

/// Whether the item may have this many bytes.
fn is_within(job: &Job, item: u32, length: u64) -> bool
    ensures { IsTrue result ↔ IsSomeAnd (slice_get (job_of job.now).items item) (λ i. length ≤ i.size) }
{
    match job.items.get(item as usize) {
        Some(item) => length <= item.size,
        None => false,
    }
}

/// What is wrong with the end of an item, of which this many bytes with this digest were received. This many of the
/// reply were received.
pub(crate) fn end_fault(
    job: &Job,
    item: u32,
    count: u64,
    length: u64,
    known: Sum,
    found: Sum,
    received_reply: u64,
) -> Option<LostCause>
    ensures right { IfNone result (EndsRight (job_of job.now) item count length known.0 found.0) }
    ensures wrong { IfSome result (λ c. ¬ EndsRight (job_of job.now) item count length known.0 found.0) }
    ensures cause { IfSome result IsKnown }
    ensures counts { IfSome result (λ c. IsOfFrame c received_reply) }
{
    if !is_within(job, item, length) {
        return Some(LostCause::Form { at: received_reply });
    }
    if job.kind == JobKind::Digest {
        return None;
    }
    if length != count {
        return Some(LostCause::Form { at: received_reply });
    }
    if known.0 != found.0 {
        return Some(LostCause::Sum { known, found });
    }
    None
}
