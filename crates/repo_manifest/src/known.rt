// What a manifest states of a file, besides its path.
use base_model::{Bundled, Label};
use base_text::Sum;

/// A file's size, time, sum and place.
#[derive(Clone, Copy)]
pub(crate) struct FileFacts {
    pub size: u64,
    pub time: u64,
    pub sum: Sum,
    pub reference: Option<Label>,
    pub bundle: Option<Bundled>,
}
