// The part of the log from a start to a stop.
ghost use Rattle.std.specs.Prelude.{◌≡◌, IfSome, IfNone};
ghost use Rattle.base_model.specs.ManifestText.{IsSegSize, IsWalPart};
ghost use Rattle.repo_names.specs.Spans.{IsSpanOf};
ghost use Rattle.server_talk.specs.Ending.{wal_of};

use base_model::{Span, WalPart};
use repo_names::{Lsn, SegSize, Segment, is_span};

/// The part of the log of which these are the ends; none where there is no such part.
pub(crate) fn wal_part(
    size: SegSize,
    start: Segment,
    stop: Segment,
    from: Lsn,
    to: Lsn,
) -> Option<WalPart>
    requires { IsSegSize size.0 }
    ensures part { IfSome result IsWalPart }
    ensures value { IfSome result (λ w. w ≡ wal_of size start stop from to) }
    ensures none { IfNone result (¬ IsSpanOf size.0 (record { start = start; stop = stop })) }
{
    let span = Span { start, stop };
    if !is_span(size, &span) {
        return None;
    }
    Some(WalPart {
        span,
        from,
        to,
        size,
    })
}
