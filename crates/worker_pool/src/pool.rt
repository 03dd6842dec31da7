// The workers of a command.
use crate::dispatch::Lost;

/// The workers of a command: the links that are left, what picks among them, and those that were lost.
#[derive(Drop)]
pub struct Pool<L, S> {
    pub links: Vec<L>,
    pub scheduler: S,
    pub lost: Vec<Lost>,
}
