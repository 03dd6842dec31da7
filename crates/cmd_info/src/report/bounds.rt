// The first and the last archived segment of a cluster.
ghost use Rattle.std.specs.Prelude.{◌≡◌};
ghost use Rattle.base_model.specs.Names.{segment_text};
ghost use Rattle.cmd_info.specs.Archived.{id_of, segment_under, segments_under, lesser, greater, least, greatest};
ghost use Rattle.cmd_info.specs.Bounds.{TakesIn, first_name, last_name};

use crate::report::report::ArchivedName;
use base_model::{ArchiveId, ArchiveName, ClusterId, Segment};
use repo_names::compare;

/// The first and the last segment in byte order of their names.
#[derive(Clone, Copy)]
pub(crate) struct Bounds {
    pub first: Segment,
    pub last: Segment,
}

/// The folder of a cluster's files in the archive.
pub(crate) fn id_of(cluster: &ClusterId) -> ArchiveId
    ensures { result ≡ id_of cluster.now }
{
    ArchiveId {
        version: cluster.version,
        number: cluster.id,
    }
}

// The whole segment that this file is, if it lies under the id.
fn segment_under(id: ArchiveId, file: &ArchivedName) -> Option<Segment>
    ensures { result ≡ segment_under id file.now }
{
    if file.id != id {
        return None;
    }
    match file.name {
        ArchiveName::Segment(segment) => Some(segment),
        _ => None,
    }
}

fn lesser(a: Segment, b: Segment) -> Segment
    ensures { segment_text result ≡ lesser (segment_text a) (segment_text b) }
{
    if compare(&a, &b).is_gt() { b } else { a }
}

fn greater(a: Segment, b: Segment) -> Segment
    ensures { segment_text result ≡ greater (segment_text a) (segment_text b) }
{
    if compare(&a, &b).is_gt() { a } else { b }
}

// The bounds, with one segment more.
fn widened(bounds: Option<Bounds>, segment: Segment) -> Bounds
    ensures first { TakesIn lesser result.first (first_name bounds) segment }
    ensures last { TakesIn greater result.last (last_name bounds) segment }
{
    match bounds {
        Some(bounds) => Bounds {
            first: lesser(bounds.first, segment),
            last: greater(bounds.last, segment),
        },
        None => Bounds {
            first: segment,
            last: segment,
        },
    }
}

/// The first and the last of the whole segments under this id; none where there is none.
pub(crate) fn bounds_of(archived: &[ArchivedName], id: ArchiveId) -> Option<Bounds>
    ensures first { first_name result ≡ least (segments_under id archived.now) }
    ensures last { last_name result ≡ greatest (segments_under id archived.now) }
{
    let mut bounds = None;
    for file in archived {
        if let Some(segment) = segment_under(id, file) {
            bounds = Some(widened(bounds, segment));
        }
    }
    bounds
}
