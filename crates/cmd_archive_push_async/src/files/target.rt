// Where the files of a drain go.
use base_model::ArchiveId;

/// The archive that files go to: that of the stanza, under the id of its current cluster, whose system this is.
#[derive(Clone, Copy)]
pub(crate) struct Target<'a> {
    pub(crate) stanza: &'a str,
    pub(crate) id: ArchiveId,
    pub(crate) system: u64,
}
