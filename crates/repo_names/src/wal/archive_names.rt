// The names of the files that a server archives (PostgreSQL manual, "Continuous Archiving and Point-in-Time Recovery").
ghost use Rattle.std.specs.Prelude.{◌≡◌, ◌≢◌, ℕ, ◌<◌, ◌^◌, ◌∷◌, ◌++◌, codes, IfSome, IfNone, IfOk, string_bytes};
ghost use Rattle.base_model.specs.declared.wal.ArchiveName.{ArchiveName};
ghost use Rattle.base_model.specs.Names.{wal_text};
ghost use Rattle.base_model.specs.Represents.{IsWalName};
ghost use Rattle.base_model.specs.Text.{hex_upper};

use crate::wal::fields::{push_field, split_field};
use crate::wal::segments::{segment_text, split_segment};
use base_model::ArchiveName;
use base_text::NoMemory;
use std::alloc::Global;

// The timeline of a history file's name.
fn read_history(text: &[u8]) -> Option<u32>
    ensures value { IfSome result (λ n. text.now ≡ hex_upper 8 n ++ codes ".history") }
    ensures none { IfNone result ((n : ℕ) → text.now ≢ hex_upper 8 n ++ codes ".history") }
{
    let (timeline, rest) = split_field(text)?;
    if rest == b".history".as_slice() {
        Some(timeline)
    } else {
        None
    }
}

// The byte at which a backup began, by what follows the segment in the name of its history.
fn read_offset(text: &[u8]) -> Option<u32>
    ensures value { IfSome result (λ n. text.now ≡ 46 ∷ hex_upper 8 n ++ codes ".backup") }
    ensures none { IfNone result ((n : ℕ) → text.now ≢ 46 ∷ hex_upper 8 n ++ codes ".backup") }
{
    let Some((b'.', rest)) = text.split_first() else {
        return None;
    };
    let (offset, rest) = split_field(rest)?;
    if rest == b".backup".as_slice() {
        Some(offset)
    } else {
        None
    }
}

/// The file of which this is the name.
pub fn read_archive_name(text: &[u8]) -> Option<ArchiveName>
    ensures value { IfSome result (λ name. text.now ≡ wal_text name) }
    ensures none { IfNone result ((name : ArchiveName) → IsWalName name → text.now ≢ wal_text name) }
{
    if let Some(timeline) = read_history(text) {
        return Some(ArchiveName::History(timeline));
    }
    let (segment, rest) = split_segment(text)?;
    if rest.is_empty() {
        return Some(ArchiveName::Segment(segment));
    }
    if rest == b".partial".as_slice() {
        return Some(ArchiveName::Partial(segment));
    }
    Some(ArchiveName::Backup(segment, read_offset(rest)?))
}

/// The name of a file as the server gives it, as `000000010000000000000003.partial`.
pub fn archive_name_text(alloc: Global, name: &ArchiveName) -> Result<String, NoMemory>
    ensures { IfOk result (λ text. string_bytes text ≡ wal_text name.now) }
{
    match name {
        ArchiveName::Segment(segment) => segment_text(alloc, segment),
        ArchiveName::Partial(segment) => {
            let mut text = segment_text(alloc, segment)?;
            text.push_str(".partial")?;
            Ok(text)
        }
        ArchiveName::History(timeline) => {
            let mut text = String::new(alloc);
            push_field(alloc, &mut text, *timeline)?;
            text.push_str(".history")?;
            Ok(text)
        }
        ArchiveName::Backup(segment, offset) => {
            let mut text = segment_text(alloc, segment)?;
            text.push('.')?;
            push_field(alloc, &mut text, *offset)?;
            text.push_str(".backup")?;
            Ok(text)
        }
    }
}
