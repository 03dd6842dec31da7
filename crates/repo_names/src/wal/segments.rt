// The names of segments (PostgreSQL manual, "WAL Internals").
ghost use Rattle.std.specs.Prelude.{◌≡◌, ◌≢◌, List, ℕ, ◌++◌, IfSome, IfNone, IfOk, OnOk, string_bytes};
ghost use Rattle.base_model.specs.declared.wal.Segment.{Segment};
ghost use Rattle.base_model.specs.InfoFiles.{IsSegment};
ghost use Rattle.base_model.specs.Names.{segment_text, segment_folder};

use crate::wal::fields::{push_field, split_field};
use base_model::Segment;
use base_text::NoMemory;
use std::alloc::Global;

/// A segment's name in front, and what follows it.
pub(crate) fn split_segment(text: &[u8]) -> Option<(Segment, &[u8])>
    ensures value { IfSome result (λ p. text.now ≡ segment_text p.0 ++ p.1.now) }
    ensures none { IfNone result ((s : Segment) (rest : List ℕ) → text.now ≢ segment_text s ++ rest) }
{
    let (timeline, rest) = split_field(text)?;
    let (log, rest) = split_field(rest)?;
    let (seg, rest) = split_field(rest)?;
    Some((Segment { timeline, log, seg }, rest))
}

/// The segment of which this is the name.
pub fn read_segment(text: &[u8]) -> Option<Segment>
    ensures value { IfSome result (λ s. text.now ≡ segment_text s) }
    ensures none { IfNone result ((s : Segment) → IsSegment s → text.now ≢ segment_text s) }
{
    let (segment, rest) = split_segment(text)?;
    if rest.is_empty() { Some(segment) } else { None }
}

/// The name of a segment: 24 digits, as `000000010000000000000003`.
pub fn segment_text(alloc: Global, segment: &Segment) -> Result<String, NoMemory>
    ensures { IfOk result (λ text. string_bytes text ≡ segment_text segment.now) }
{
    let mut text = segment_folder(alloc, segment)?;
    push_field(alloc, &mut text, segment.seg)?;
    Ok(text)
}

/// The folder of a segment: the first 16 digits of its name.
pub fn segment_folder(alloc: Global, segment: &Segment) -> Result<String, NoMemory>
    ensures { IfOk result (λ text. string_bytes text ≡ segment_folder segment.now) }
{
    let mut text = String::new(alloc);
    push_field(alloc, &mut text, segment.timeline)?;
    push_field(alloc, &mut text, segment.log)?;
    Ok(text)
}
