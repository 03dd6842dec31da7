// Parts of the log (PostgreSQL manual, "WAL Internals").
ghost use Rattle.std.specs.Prelude.{◌≡◌, true, false};
ghost use Rattle.base_model.specs.ManifestText.{IsSegSize, position};
ghost use Rattle.repo_names.specs.Spans.{IsSpanOf};

use crate::wal::sizes::segments_per_log;
use base_model::{SegSize, Segment, Span};

/// The most segments that may follow the first one of a part.
const MOST_FOLLOWING: u64 = 65_536;

// The place of a segment among all of its timeline.
fn position(size: SegSize, segment: &Segment) -> u64
    requires { IsSegSize size.0 }
    ensures { result ≡ position size.0 segment.now }
{
    u64::from(segment.log) * u64::from(segments_per_log(size)) + u64::from(segment.seg)
}

/// Whether these are the ends of a part of a log of this segment size.
pub fn is_span(size: SegSize, span: &Span) -> bool
    requires { IsSegSize size.0 }
    ensures fit { result ≡ true → IsSpanOf size.0 span.now }
    ensures other { result ≡ false → ¬ IsSpanOf size.0 span.now }
{
    let per_log = segments_per_log(size);
    if span.start.seg >= per_log {
        return false;
    }
    if span.stop.seg >= per_log {
        return false;
    }
    if span.start.timeline != span.stop.timeline {
        return false;
    }
    let first = position(size, &span.start);
    let last = position(size, &span.stop);
    if last < first {
        return false;
    }
    last - first <= MOST_FOLLOWING
}
