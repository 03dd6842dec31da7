// Where the bytes of a manifest's file lie (pgBackRest user guide, "File Bundling").
ghost use Rattle.std.specs.Prelude.{◌≡◌, ◌<◌, IfSome, IfNone};
ghost use Rattle.base_model.specs.declared.labels.Label.{Label};
ghost use Rattle.base_model.specs.Place.{holder};
ghost use Rattle.base_model.specs.Values.{file_entry_of};
ghost use Rattle.repo_manifest.specs.Locating.{holder_of, LocatesFile};

use base_model::{FileEntry, Label};

/// The label in whose folder bytes lie.
#[derive(Clone, Copy, Debug, PartialEq, Eq)]
pub enum Holder {
    /// the backup's own
    Own,
    Other(Label),
}

/// The file in that folder.
#[derive(Clone, Copy)]
pub enum Spot<'a> {
    /// the file's own, below `pg_data`
    Path(&'a str),
    /// the bundle of this number
    Bundle(u32),
}

/// Where bytes lie: this many from a byte on.
#[derive(Clone, Copy)]
pub struct Place<'a> {
    pub holder: Holder,
    pub spot: Spot<'a>,
    pub at: u64,
    pub size: u64,
}

fn holder_in(entry: &FileEntry) -> Holder
    ensures { (own : Label) → holder_of own result ≡ holder own (file_entry_of entry.now) }
{
    match entry.reference {
        Some(label) => Holder::Other(label),
        None => Holder::Own,
    }
}

/// The place of a file's bytes; a file without bytes has none.
pub fn locate(entry: &FileEntry) -> Option<Place<'_>>
    ensures none { IfNone result (entry.now.size ≡ 0) }
    ensures size { IfSome result (λ p. (0 < entry.now.size) × (p.size ≡ entry.now.size)) }
    ensures place { IfSome result (LocatesFile (file_entry_of entry.now)) }
{
    if entry.size == 0 {
        return None;
    }
    let holder = holder_in(entry);
    let size = entry.size;
    match entry.bundle {
        Some(bundle) => Some(Place {
            holder,
            spot: Spot::Bundle(bundle.number),
            at: bundle.at,
            size,
        }),
        None => Some(Place {
            holder,
            spot: Spot::Path(entry.path.as_str()),
            at: 0,
            size,
        }),
    }
}
