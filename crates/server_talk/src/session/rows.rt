// Reads what rows state.
ghost use Rattle.std.specs.Prelude.{◌≡◌, ◌≢◌, ◌<◌, ◌^◌, ◌∷◌, [], ℕ, Some, IfSome, IfNone, IfOk, decimal, Option, unwrap_or};
ghost use Rattle.base_model.specs.declared.wal.Segment.{Segment};
ghost use Rattle.base_model.specs.InfoFiles.{IsSegment};
ghost use Rattle.base_model.specs.ManifestText.{IsSegSize};
ghost use Rattle.base_model.specs.Names.{segment_text};
ghost use Rattle.base_model.specs.Text.{Text};
ghost use Rattle.repo_names.specs.Lsn.{IsLsn};
ghost use Rattle.server_talk.specs.declared.session.known.Started.{Started};
ghost use Rattle.server_talk.specs.Rows.{IsSystemRow, IsStartRow, IsStopRow, StatesNoPlace, Stop, four_cells};
ghost use Rattle.server_talk.specs.Views.{cell_view, cells_view, talk_view, stopped_view};

use crate::session::known::{Started, Stopped};
use crate::session::talk::Talk;
use base_text::read_decimal;
use repo_names::{Lsn, SegSize, Segment, read_lsn, read_seg_size, read_segment};
use std::alloc::{AllocError, Global};

// A number of 64 bits in decimal.
fn read_number(text: &str) -> Option<u64>
    ensures value { IfSome result (λ n. (text.now ≡ decimal n) × (n < 2 ^ 64)) }
    ensures none { IfNone result ((n : ℕ) → n < 2 ^ 64 → text.now ≢ decimal n) }
{
    let number = read_decimal(text.as_bytes())?;
    Some(number)
}

// A segment size in decimal.
fn read_size(text: &str) -> Option<SegSize>
    ensures value { IfSome result (λ size. (text.now ≡ decimal size.0) × IsSegSize size.0) }
    ensures none { IfNone result ((size : ℕ) → IsSegSize size → text.now ≢ decimal size) }
{
    let bytes = read_number(text)?;
    read_seg_size(bytes)
}

fn two_texts(row: &[Option<String>]) -> Option<(&str, &str)>
    ensures value { IfSome result (λ p. cells_view row.now ≡ Some p.0.now ∷ Some p.1.now ∷ []) }
    ensures none { IfNone result ((a b : Text) → cells_view row.now ≢ Some a ∷ Some b ∷ []) }
{
    match row {
        [Some(first), Some(second)] => Some((first, second)),
        _ => None,
    }
}

// A position, and the name of a segment.
fn read_place(lsn: &str, segment: &str) -> Option<(Lsn, Segment)>
    ensures value { IfSome result (λ p. IsLsn lsn.now p.0.0 × IsSegment p.1 × (segment.now ≡ segment_text p.1)) }
    ensures none { IfNone result (StatesNoPlace lsn.now segment.now) }
{
    let Some(lsn) = read_lsn(lsn.as_bytes()) else {
        return None;
    };
    let Some(segment) = read_segment(segment.as_bytes()) else {
        return None;
    };
    Some((lsn, segment))
}

/// The system, and the size of its segments.
pub(crate) fn system_row(talk: &Talk) -> Option<(u64, SegSize)>
    ensures value { IfSome result (λ p. IsSystemRow (talk_view talk.now) p.0 p.1.0) }
    ensures none { IfNone result ((found size : ℕ) → ¬ IsSystemRow (talk_view talk.now) found size) }
{
    let (system, size) = two_texts(&talk.row)?;
    let system = read_number(system)?;
    let size = read_size(size)?;
    Some((system, size))
}

/// Where a backup starts.
pub(crate) fn start_row(talk: &Talk) -> Option<Started>
    ensures value { IfSome result (λ s. IsStartRow (talk_view talk.now) s) }
    ensures none { IfNone result ((s : Started) → ¬ IsStartRow (talk_view talk.now) s) }
{
    let Some((first, second)) = two_texts(&talk.row) else {
        return None;
    };
    let Some((lsn, segment)) = read_place(first, second) else {
        return None;
    };
    Some(Started { lsn, segment })
}

fn four_texts(row: &[Option<String>]) -> Option<(&str, &str, &str, &Option<String>)>
    ensures value { IfSome result
        (λ p. cells_view row.now ≡ four_cells p.0.now p.1.now p.2.now (cell_view p.3.now)) }
    ensures none { IfNone result ((a b c : Text) (d : Option Text) → cells_view row.now ≢ four_cells a b c d) }
{
    match row {
        [Some(first), Some(second), Some(third), last] => Some((first, second, third, last)),
        _ => None,
    }
}

// NULL is the empty text.
fn text_or_empty(cell: &Option<String>) -> &str
    ensures { result.now ≡ unwrap_or (cell_view cell.now) [] }
{
    match cell {
        Some(text) => text,
        None => "",
    }
}

/// Where a backup stops, and the contents of its files.
pub(crate) fn stop_row(alloc: Global, talk: &Talk) -> Result<Option<Stopped>, AllocError>
    ensures value { IfOk result (λ o. IfSome o (λ s. IsStopRow (talk_view talk.now) (stopped_view s))) }
    ensures none { IfOk result (λ o. IfNone o ((s : Stop) → ¬ IsStopRow (talk_view talk.now) s)) }
{
    let Some((first, second, label, map)) = four_texts(&talk.row) else {
        return Ok(None);
    };
    let Some((lsn, segment)) = read_place(first, second) else {
        return Ok(None);
    };
    Ok(Some(Stopped {
        lsn,
        segment,
        label_file: String::from_str(alloc, label)?,
        map_file: String::from_str(alloc, text_or_empty(map))?,
    }))
}
