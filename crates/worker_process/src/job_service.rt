// Serves the jobs of a parent.
ghost use Rattle.std.specs.Prelude.{◌≡◌, ◌≤◌, ◌<◌, ◌+◌, ◌^◌, ◌⊎◌, false, true, ℕ, Some, length, vec_len, IfOk, IfErr, IsErrOf, string_bytes};
ghost use Rattle.base_devices.specs.Cause.{Rises};
ghost use Rattle.base_devices.specs.Content.{Content};
ghost use Rattle.base_model.specs.Text.{Text};
ghost use Rattle.worker_process.specs.declared.serve_fault.ServeFault.TheVariants.{Read as InputFailed, OutputStream as OutputFailed, NoMemory as OutOfMemory};
ghost use Rattle.worker_process.specs.Opening.{FailedRoot};
ghost use Rattle.worker_process.specs.Serving.{counts, Served, ServedNext, ServedJobs, JobsEnd, NotOpened, frame_limit};
ghost use Rattle.worker_process.specs.Receiving.{IsNotOutput};

use crate::frame_output::{HEAD_SIZE, PART_SIZE};
use crate::job_reply::{Opened, answer_job};
use crate::receiving::{is_over, receive_job, receive_setup};
use crate::serve_fault::ServeFault;
use base_devices::{DeviceError, Files, InputFiles, OutputStream};
use std::alloc::Global;
use worker_protocol::Roots;

/// This many frames are taken, the setup among them.
const FRAME_LIMIT: u64 = 4_294_967_295;

// Which of the roots were opened, and how many bytes of the input came before the next job.
#[derive(Clone, Copy)]
struct Progress {
    opened: Opened,
    start: u64,
}

// Opens a root, and returns whether that was so.
fn open_root<F: Files>(files: &mut F, root: &str) -> Result<bool, ServeFault>
    ensures opened { IfOk result (λ b. b ≡ true → F.place files.new ≡ root.now) }
    ensures failed { IfOk result (λ b. b ≡ false → Rises (F.faults files.old) (F.faults files.new)) }
    ensures files { F.files files.new ≡ F.files files.old }
    ensures later { F.faults files.old ≤ F.faults files.new }
    ensures only { IfErr result (λ e. e ≡ OutOfMemory) }
{
    match files.open(root) {
        Ok(()) => Ok(true),
        Err(DeviceError::Failed) => Ok(false),
        Err(DeviceError::NoMemory) => Err(ServeFault::NoMemory),
    }
}

fn open_roots<F: Files, G: Files>(
    tree: &mut F,
    repo: &mut G,
    roots: &Roots,
) -> Result<Opened, ServeFault>
    ensures tree_opened { IfOk result (λ o. o.tree ≡ true → F.place tree.new ≡ string_bytes roots.now.tree) }
    ensures repo_opened { IfOk result (λ o. o.repo ≡ true → G.place repo.new ≡ string_bytes roots.now.repo) }
    ensures tree_failed { IfOk result (λ o. o.tree ≡ false → Rises (F.faults tree.old) (F.faults tree.new)) }
    ensures repo_failed { IfOk result (λ o. o.repo ≡ false → Rises (G.faults repo.old) (G.faults repo.new)) }
    ensures tree { F.files tree.new ≡ F.files tree.old }
    ensures repo { G.files repo.new ≡ G.files repo.old }
    ensures tree_later { F.faults tree.old ≤ F.faults tree.new }
    ensures repo_later { G.faults repo.old ≤ G.faults repo.new }
    ensures only { IfErr result (λ e. e ≡ OutOfMemory) }
{
    let tree = open_root(tree, &roots.tree)?;
    let repo = open_root(repo, &roots.repo)?;
    Ok(Opened { tree, repo })
}

// Receives a job and answers it, and returns the length of its frame; none where the input is over.
fn serve_next<I: InputFiles, O: OutputStream, F: Files, G: Files>(
    alloc: Global,
    input: &mut I,
    out: &mut O,
    tree: &mut F,
    repo: &mut G,
    at: Progress,
    room: &mut [u8],
) -> Result<Option<u64>, ServeFault>
    requires room { length room.old ≡ 32773 }
    ensures known { (ft fr : Content) (rest : Text) → F.files tree.old ≡ Some ft → G.files repo.old ≡ Some fr
        → (I.state input.old).left ≡ Some rest
        → ServedNext ft fr (FailedRoot at.opened (F.faults tree.old) (G.faults repo.old) (F.faults tree.new)
        (G.faults repo.new)) at.start rest result (I.state input.new).left (O.state out.old).written
        (O.state out.new).written }
    ensures room { length room.new ≡ length room.old }
    ensures tree { F.files tree.new ≡ F.files tree.old }
    ensures repo { G.files repo.new ≡ G.files repo.old }
    ensures tree_place { F.place tree.new ≡ F.place tree.old }
    ensures repo_place { G.place repo.new ≡ G.place repo.old }
    ensures tree_later { F.faults tree.old ≤ F.faults tree.new }
    ensures repo_later { G.faults repo.old ≤ G.faults repo.new }
    ensures read { IsErrOf result InputFailed → Rises (I.state input.old).faults (I.state input.new).faults }
    ensures in_later { (I.state input.old).faults ≤ (I.state input.new).faults }
    ensures sink { IsErrOf result OutputFailed → Rises (O.state out.old).faults (O.state out.new).faults }
    ensures out_later { (O.state out.old).faults ≤ (O.state out.new).faults }
{
    let (job, size) = match receive_job(alloc, input, room, at.start) {
        Ok(Some(received_reply)) => received_reply,
        Ok(None) => return Ok(None),
        Err(fault) => return Err(fault),
    };
    match answer_job(alloc, out, tree, repo, at.opened, &job, room) {
        Ok(()) => Ok(Some(size)),
        Err(fault) => Err(fault),
    }
}

// This many jobs are taken after the setup.
#[tactic(auto, unfolding(crate::specs::Serving::frame_limit))]
fn job_limit() -> u64
    ensures limit { result + 1 ≡ frame_limit }
    ensures fits { result + 1 < 2 ^ 64 }
{
    FRAME_LIMIT - 1
}

// Where this many jobs were served, the input has to be over.
fn end_of_jobs<I: InputFiles>(
    alloc: Global,
    input: &mut I,
    room: &mut [u8],
    jobs: u64,
) -> Result<u64, ServeFault>
    requires room { 0 < length room.old }
    requires jobs { jobs + 1 ≡ frame_limit }
    requires fits { jobs + 1 < 2 ^ 64 }
    ensures known { (start : ℕ) (rest : Text) → (I.state input.old).left ≡ Some rest
        → JobsEnd jobs start rest result }
    ensures room { length room.new ≡ length room.old }
    ensures read { IsErrOf result InputFailed → Rises (I.state input.old).faults (I.state input.new).faults }
    ensures later { (I.state input.old).faults ≤ (I.state input.new).faults }
    ensures only { IfErr result IsNotOutput }
{
    if is_over(alloc, input, room)? {
        return Ok(jobs);
    }
    Err(ServeFault::TooMany { limit: jobs + 1 })
}

// Serves jobs until the input is over.
fn serve_jobs<I: InputFiles, O: OutputStream, F: Files, G: Files>(
    alloc: Global,
    input: &mut I,
    out: &mut O,
    tree: &mut F,
    repo: &mut G,
    at: Progress,
    room: &mut [u8],
) -> Result<u64, ServeFault>
    requires room { length room.old ≡ 32773 }
    ensures served { (ft fr : Content) (rest : Text) → F.files tree.old ≡ Some ft → G.files repo.old ≡ Some fr
        → (I.state input.old).left ≡ Some rest
        → ServedJobs ft fr (NotOpened at.opened) (counts (F.faults tree.old) (G.faults repo.old))
        (counts (F.faults tree.new) (G.faults repo.new)) at.start rest result (O.state out.old).written
        (O.state out.new).written }
    ensures tree { F.files tree.new ≡ F.files tree.old }
    ensures repo { G.files repo.new ≡ G.files repo.old }
    ensures tree_place { F.place tree.new ≡ F.place tree.old }
    ensures repo_place { G.place repo.new ≡ G.place repo.old }
    ensures tree_later { F.faults tree.old ≤ F.faults tree.new }
    ensures repo_later { G.faults repo.old ≤ G.faults repo.new }
    ensures read { IsErrOf result InputFailed → Rises (I.state input.old).faults (I.state input.new).faults }
    ensures sink { IsErrOf result OutputFailed → Rises (O.state out.old).faults (O.state out.new).faults }
{
    let limit = job_limit();
    let mut place = at.start;
    for jobs in 0..limit {
        let next = Progress {
            opened: at.opened,
            start: place,
        };
        match serve_next(alloc, input, out, tree, repo, next, room) {
            Ok(Some(size)) => place = place.saturating_add(size),
            Ok(None) => return Ok(jobs),
            Err(fault) => return Err(fault),
        }
    }
    end_of_jobs(alloc, input, room, limit)
}

// Room for a part after its head.
fn new_room(alloc: Global) -> Result<Vec<u8>, ServeFault>
    ensures size { IfOk result (λ v. vec_len v ≡ 32773) }
    ensures only { IfErr result (λ e. e ≡ OutOfMemory) }
{
    Ok(vec![in alloc; 0u8; HEAD_SIZE + PART_SIZE]?)
}

/// All that a worker does: it answers each job of the input by its reply, until the input ends, and returns the number
/// of jobs. The first frame is the setup. The input is read where it is.
pub fn serve<I: InputFiles, O: OutputStream, F: Files, G: Files>(
    alloc: Global,
    input: &mut I,
    out: &mut O,
    tree: &mut F,
    repo: &mut G,
) -> Result<u64, ServeFault>
    // Each job was answered by its reply, and the bytes of the input are why it ended.
    ensures served { (ft fr : Content) (bytes : Text) → F.files tree.old ≡ Some ft → G.files repo.old ≡ Some fr
        → (I.state input.old).left ≡ Some bytes
        → Served ft fr bytes (counts (F.faults tree.old) (G.faults repo.old))
        (counts (F.faults tree.new) (G.faults repo.new)) (F.place tree.new) (G.place repo.new) result
        (O.state out.old).written (O.state out.new).written }
    ensures read { IsErrOf result InputFailed → Rises (I.state input.old).faults (I.state input.new).faults }
    ensures sink { IsErrOf result OutputFailed → Rises (O.state out.old).faults (O.state out.new).faults }
    ensures tree { F.files tree.new ≡ F.files tree.old }
    ensures repo { G.files repo.new ≡ G.files repo.old }
{
    let mut room = match new_room(alloc) {
        Ok(room) => room,
        Err(fault) => return Err(fault),
    };
    let (roots, size) = match receive_setup(alloc, input, &mut room) {
        Ok(Some(received_reply)) => received_reply,
        Ok(None) => return Ok(0),
        Err(fault) => return Err(fault),
    };
    let opened = match open_roots(tree, repo, &roots) {
        Ok(opened) => opened,
        Err(fault) => return Err(fault),
    };
    let at = Progress {
        opened,
        start: size,
    };
    serve_jobs(alloc, input, out, tree, repo, at, &mut room)
}
