// What a run of jobs is at.
use crate::dispatch::fault::Lost;
use crate::jobs::JobTable;
use crate::replies::Receiving;

/// The links of a run, each in its slot until it is lost, and how far the reply of each was received.
#[derive(Drop)]
pub(crate) struct Slots<L> {
    pub(crate) slots: Vec<Option<L>>,
    pub(crate) receivings: Vec<Receiving>,
}

/// A run of jobs: its links, which of them has which job, and the links that were lost.
#[derive(Drop)]
pub(crate) struct Run<L> {
    pub(crate) links: Slots<L>,
    pub(crate) job_table: JobTable,
    pub(crate) lost: Vec<Lost>,
}
