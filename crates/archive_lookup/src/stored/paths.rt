// Reads the paths of archive files.
ghost use Rattle.std.specs.Prelude.{◌≡◌, ◌≢◌, ◌==◌, ℕ, ◌<◌, ◌^◌, ◌∷◌, ◌++◌, IfSome, IfNone, decimal, option_map, position};
ghost use Rattle.base_text.specs.Sum.{IsSum};
ghost use Rattle.base_model.specs.declared.wal.ArchiveId.{ArchiveId};
ghost use Rattle.base_model.specs.declared.wal.ArchiveName.{ArchiveName};
ghost use Rattle.base_model.specs.Names.{id_text};
ghost use Rattle.base_model.specs.Represents.{IsArchivePlace};
ghost use Rattle.base_model.specs.Text.{Text};
ghost use Rattle.archive_lookup.specs.Paths.{Lacks, has_sum, file_text, folder_text, below_id, IsReadAs, IsCut, IsPathOfNone, IsPathRead, IsTextOfNone};

use base_model::{ArchiveId, ArchiveName};
use base_text::{Sum, read_decimal};
use repo_names::read_archive_name;

/// What a path below the stanza's folder states.
#[derive(Clone, Copy)]
pub struct StoredName {
    pub id: ArchiveId,
    pub name: ArchiveName,
    pub sum: Option<Sum>,
}

/// Whether the name of the file, where it is stored, has the digits of its sum.
pub fn has_sum(name: &ArchiveName) -> bool
    ensures { result ≡ has_sum name.now }
{
    match name {
        ArchiveName::Segment(_) | ArchiveName::Partial(_) => true,
        ArchiveName::History(_) | ArchiveName::Backup(..) => false,
    }
}

fn place_of(byte: u8, text: &[u8]) -> Option<usize>
    ensures { result ≡ position (λ b. b == byte) text.now }
{
    text.iter().position(|b| *b == byte)
}

// What comes before the first of these bytes, and after it.
fn split_at(text: &[u8], byte: u8) -> Option<(&[u8], &[u8])>
    ensures value { IfSome result (λ p. (text.now ≡ p.0.now ++ byte ∷ p.1.now) × Lacks byte p.0.now) }
    ensures none { IfNone result (Lacks byte text.now) }
{
    let at = place_of(byte, text)?;
    Some((&text[..at], &text[at + 1..]))
}

fn read_number(text: &[u8]) -> Option<u32>
    ensures value { IfSome result (λ n. text.now ≡ decimal n) }
    ensures none { IfNone result ((n : ℕ) → n < 2 ^ 32 → text.now ≢ decimal n) }
{
    u32::try_from(read_decimal(text)?).ok()
}

fn read_id(text: &[u8]) -> Option<ArchiveId>
    ensures value { IfSome result (λ id. text.now ≡ id_text id) }
    ensures none { IfNone result ((id : ArchiveId) → id.version < 2 ^ 32 → id.number < 2 ^ 32
        → text.now ≢ id_text id) }
{
    let (version, number) = split_at(text, b'-')?;
    let version = read_number(version)?;
    let number = read_number(number)?;
    Some(ArchiveId { version, number })
}

// The file by the last element of its path.
fn read_file(file: &[u8]) -> Option<(ArchiveName, Option<Sum>)>
    ensures value { IfSome result (λ p. IsReadAs file_text file.now p.0 (option_map (λ s. s.0) p.1)) }
    ensures none { IfNone result (IsTextOfNone file_text file.now) }
{
    match split_at(file, b'-') {
        Some((name, digits)) => {
            let name = read_archive_name(name)?;
            let sum = Sum::read(digits)?;
            if has_sum(&name) {
                Some((name, Some(sum)))
            } else {
                None
            }
        }
        None => {
            let name = read_archive_name(file)?;
            if has_sum(&name) {
                None
            } else {
                Some((name, None))
            }
        }
    }
}

// The folder below the id of a file with this last element, where there is one.
fn folder_of<'a>(name: &ArchiveName, file: &'a [u8]) -> Option<&'a [u8]>
    ensures { (sum : Text) → file.now ≡ file_text name.now sum
        → option_map (λ t. t.now) result ≡ folder_text name.now }
{
    match name {
        ArchiveName::History(_) => None,
        ArchiveName::Segment(_) | ArchiveName::Partial(_) | ArchiveName::Backup(..) => file.get(
            ..16,
        ),
    }
}

// The folder below the id, where there is one, and the last element.
fn split_folder(text: &[u8]) -> (Option<&[u8]>, &[u8])
    ensures { IsCut text.now (option_map (λ t. t.now) result.0) result.1.now }
{
    match split_at(text, b'/') {
        Some((folder, file)) => (Some(folder), file),
        None => (None, text),
    }
}

// The file by its path below the id.
fn read_below(text: &[u8]) -> Option<(ArchiveName, Option<Sum>)>
    ensures value { IfSome result (λ p. IsReadAs below_id text.now p.0 (option_map (λ s. s.0) p.1)) }
    ensures none { IfNone result (IsTextOfNone below_id text.now) }
{
    let (folder, file) = split_folder(text);
    let (name, sum) = read_file(file)?;
    if folder_of(&name, file) == folder {
        Some((name, sum))
    } else {
        None
    }
}

/// The archive file of which this is the path, after the stanza's folder with its slash.
pub fn read_path(path: &[u8], folder: &[u8]) -> Option<StoredName>
    ensures value { IfSome result (λ known. IsPathRead folder.now path.now known) }
    ensures fits { IfSome result (λ known. (sum : Text) → IsSum sum → IsArchivePlace known.id known.name sum) }
    ensures none { IfNone result (IsPathOfNone folder.now path.now) }
{
    let below = path.strip_prefix(folder)?;
    let (id, rest) = split_at(below, b'/')?;
    let id = read_id(id)?;
    let (name, sum) = read_below(rest)?;
    Some(StoredName { id, name, sum })
}
