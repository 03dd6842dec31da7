// The order of segments (PostgreSQL manual, "WAL Internals").
ghost use Rattle.std.specs.Prelude.{◌≡◌, IfSome, IfNone};
ghost use Rattle.base_model.specs.ManifestText.{IsSegSize};
ghost use Rattle.base_model.specs.Names.{segment_text};
ghost use Rattle.base_model.specs.Text.{text_cmp};
ghost use Rattle.repo_names.specs.Next.{IsOfLog, IsNext, FollowsOnly, IsLast};

use crate::wal::sizes::segments_per_log;
use base_model::{SegSize, Segment};
use std::cmp::Ordering;

/// The segment that follows on the timeline; none after the last of all.
pub fn next(segment: &Segment, size: SegSize) -> Option<Segment>
    requires valid { IsSegSize size.0 }
    requires of_log { IsOfLog size.0 segment.now }
    ensures next { IfSome result (IsNext size.0 segment.now) }
    ensures of_one { IfSome result (FollowsOnly size.0 segment.now) }
    ensures none { IfNone result (IsLast size.0 segment.now) }
{
    let Segment { timeline, log, seg } = *segment;
    let per_log = segments_per_log(size);
    if seg + 1 < per_log {
        return Some(Segment {
            timeline,
            log,
            seg: seg + 1,
        });
    }
    let log = log.checked_add(1)?;
    Some(Segment {
        timeline,
        log,
        seg: 0,
    })
}

// Timeline first, then log, then segment.
fn fields(segment: &Segment) -> (u32, u32, u32)
    ensures timeline { result.0 ≡ segment.now.timeline }
    ensures log { result.1 ≡ segment.now.log }
    ensures seg { result.2 ≡ segment.now.seg }
{
    (segment.timeline, segment.log, segment.seg)
}

/// The byte order of the two names.
pub fn compare(a: &Segment, b: &Segment) -> Ordering
    ensures { result ≡ text_cmp (segment_text a.now) (segment_text b.now) }
{
    fields(a).cmp(&fields(b))
}
