// Answers a job.
ghost use Rattle.std.specs.Prelude.{◌≡◌, ◌≤◌, Some, length, IfErr, IsErrOf};
ghost use Rattle.base_devices.specs.Cause.{Rises};
ghost use Rattle.base_devices.specs.Content.{Content};
ghost use Rattle.worker_process.specs.declared.serve_fault.ServeFault.TheVariants.{OutputStream as OutputFailed};
ghost use Rattle.worker_protocol.specs.Views.{item_of, job_of};
ghost use Rattle.worker_process.specs.Answers.{value_of, KnownItem, KnownJob};
ghost use Rattle.worker_process.specs.Opening.{FailedRoot};
ghost use Rattle.worker_process.specs.Parts.{Answered};
ghost use Rattle.worker_process.specs.Writing.{IsOutputFault};

use crate::item_answer::{answer_item, tell_unread};
use crate::serve_fault::ServeFault;
use base_devices::{Files, OutputStream};
use std::alloc::Global;
use worker_protocol::{Item, Job, JobKind, Root};

/// Which of the roots were opened.
#[derive(Clone, Copy)]
pub(crate) struct Opened {
    pub tree: bool,
    pub repo: bool,
}

// An item of a job.
#[derive(Clone, Copy)]
struct Asked<'a> {
    kind: JobKind,
    item: &'a Item,
}

// Answers an item, and returns whether the reply continues after it.
fn answer_next<O: OutputStream, F: Files>(
    alloc: Global,
    out: &mut O,
    files: &mut F,
    is_open: bool,
    kind: JobKind,
    item: &Item,
    room: &mut [u8],
) -> Result<bool, ServeFault>
    requires room { length room.old ≡ 32773 }
    ensures known { Answered is_open result F.files F.faults O.state kind item.now files.old out.old files.new out.new }
    ensures room { length room.new ≡ length room.old }
    ensures files { F.files files.new ≡ F.files files.old }
    ensures place { F.place files.new ≡ F.place files.old }
    ensures failed { F.faults files.old ≤ F.faults files.new }
    ensures sink { IsErrOf result OutputFailed → Rises (O.state out.old).faults (O.state out.new).faults }
    ensures later { (O.state out.old).faults ≤ (O.state out.new).faults }
    ensures only { IfErr result IsOutputFault }
{
    if is_open {
        answer_item(alloc, out, files, kind, item, room)
    } else {
        tell_unread(alloc, out)
    }
}

// The same for an item of either root.
fn answer_of_root<O: OutputStream, F: Files, G: Files>(
    alloc: Global,
    out: &mut O,
    tree: &mut F,
    repo: &mut G,
    opened: Opened,
    asked: Asked<'_>,
    room: &mut [u8],
) -> Result<bool, ServeFault>
    requires room { length room.old ≡ 32773 }
    ensures known { (ft fr : Content) → F.files tree.old ≡ Some ft → G.files repo.old ≡ Some fr
        → KnownItem asked.entry.kind (item_of asked.entry.item.now) (value_of ft fr (item_of asked.entry.item.now))
        (FailedRoot opened (F.faults tree.old) (G.faults repo.old) (F.faults tree.new)
        (G.faults repo.new) asked.entry.item.now.root) result (O.state out.old).written (O.state out.new).written }
    ensures room { length room.new ≡ length room.old }
    ensures tree { F.files tree.new ≡ F.files tree.old }
    ensures repo { G.files repo.new ≡ G.files repo.old }
    ensures tree_place { F.place tree.new ≡ F.place tree.old }
    ensures repo_place { G.place repo.new ≡ G.place repo.old }
    ensures tree_failed { F.faults tree.old ≤ F.faults tree.new }
    ensures repo_failed { G.faults repo.old ≤ G.faults repo.new }
    ensures sink { IsErrOf result OutputFailed → Rises (O.state out.old).faults (O.state out.new).faults }
    ensures later { (O.state out.old).faults ≤ (O.state out.new).faults }
    ensures only { IfErr result IsOutputFault }
{
    match asked.item.root {
        Root::DataFolder => answer_next(
            alloc,
            out,
            tree,
            opened.tree,
            asked.kind,
            asked.item,
            room,
        ),
        Root::Repo => answer_next(alloc, out, repo, opened.repo, asked.kind, asked.item, room),
    }
}

/// Answers a job.
pub(crate) fn answer_job<O: OutputStream, F: Files, G: Files>(
    alloc: Global,
    out: &mut O,
    tree: &mut F,
    repo: &mut G,
    opened: Opened,
    job: &Job,
    room: &mut [u8],
) -> Result<(), ServeFault>
    requires room { length room.old ≡ 32773 }
    ensures known { (ft fr : Content) → F.files tree.old ≡ Some ft → G.files repo.old ≡ Some fr
        → KnownJob (job_of job.now) ft fr
        (FailedRoot opened (F.faults tree.old) (G.faults repo.old) (F.faults tree.new) (G.faults repo.new)) result
        (O.state out.old).written (O.state out.new).written }
    ensures room { length room.new ≡ length room.old }
    ensures tree { F.files tree.new ≡ F.files tree.old }
    ensures repo { G.files repo.new ≡ G.files repo.old }
    ensures tree_place { F.place tree.new ≡ F.place tree.old }
    ensures repo_place { G.place repo.new ≡ G.place repo.old }
    ensures tree_failed { F.faults tree.old ≤ F.faults tree.new }
    ensures repo_failed { G.faults repo.old ≤ G.faults repo.new }
    ensures sink { IsErrOf result OutputFailed → Rises (O.state out.old).faults (O.state out.new).faults }
    ensures later { (O.state out.old).faults ≤ (O.state out.new).faults }
    ensures only { IfErr result IsOutputFault }
{
    for item in &job.items {
        let asked = Asked {
            kind: job.kind,
            item,
        };
        if !answer_of_root(alloc, out, tree, repo, opened, asked, room)? {
            return Ok(());
        }
    }
    Ok(())
}
