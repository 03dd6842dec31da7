// Writes frames in their one spelling.
ghost use Rattle.std.specs.Prelude.{◌≡◌, ◌^◌, ◌<◌, ◌++◌, length, All, IfOk, OnOk, string_bytes};
ghost use Rattle.worker_protocol.specs.Frames.{FitsFrame, FitsJob, FitsRoots, framed, spell, short_text, item_bytes, job_bytes, root_letter, kind_letter};
ghost use Rattle.worker_protocol.specs.Frames.Frame.{Setup, Task};
ghost use Rattle.worker_protocol.specs.Views.{item_of, job_of, roots_of, frame_of};

use crate::frames::frames::{Frame, Item, Job, JobKind, Root, Roots};
use base_text::NoMemory;
use std::alloc::Global;

fn root_letter(root: Root) -> u8
    ensures { result ≡ root_letter root }
{
    match root {
        Root::DataFolder => b'T',
        Root::Repo => b'R',
    }
}

fn kind_letter(kind: JobKind) -> u8
    ensures { result ≡ kind_letter kind }
{
    match kind {
        JobKind::Read => b'R',
        JobKind::Digest => b'D',
    }
}

fn put_text(out: &mut Vec<u8>, text: &str) -> Result<(), NoMemory>
    requires { length text.now < 2 ^ 16 }
    ensures { OnOk result (out.new.items ≡ out.old.items ++ short_text text.now) }
{
    out.extend_from_slice(&(text.len() as u16).to_be_bytes())?;
    out.extend_from_slice(text.as_bytes())?;
    Ok(())
}

#[tactic(auto, unfolding(crate::specs::Frames::item_bytes))]
fn put_item(out: &mut Vec<u8>, item: &Item) -> Result<(), NoMemory>
    requires { length (string_bytes item.now.path) < 2 ^ 16 }
    ensures { OnOk result (out.new.items ≡ out.old.items ++ item_bytes (item_of item.now)) }
{
    out.push(root_letter(item.root))?;
    put_text(out, &item.path)?;
    out.extend_from_slice(&item.at.to_be_bytes())?;
    out.extend_from_slice(&item.size.to_be_bytes())?;
    Ok(())
}

#[tactic(auto, unfolding(crate::specs::Frames::job_bytes))]
fn job_body(alloc: Global, job: &Job) -> Result<Vec<u8>, NoMemory>
    requires few { length job.now.items.items < 2 ^ 32 }
    requires items { All (λ i. length (string_bytes i.path) < 2 ^ 16) job.now.items.items }
    ensures { IfOk result (λ v. v.items ≡ job_bytes (job_of job.now)) }
{
    let mut out = Vec::new(alloc);
    out.push(kind_letter(job.kind))?;
    out.extend_from_slice(&(job.items.len() as u32).to_be_bytes())?;
    for item in &job.items {
        put_item(&mut out, item)?;
    }
    Ok(out)
}

fn framed(alloc: Global, kind: u8, body: &[u8]) -> Result<Vec<u8>, NoMemory>
    requires { length body.now < 2 ^ 32 }
    ensures { IfOk result (λ v. v.items ≡ framed kind body.now) }
{
    let mut out = Vec::new(alloc);
    out.push(kind)?;
    out.extend_from_slice(&(body.len() as u32).to_be_bytes())?;
    out.extend_from_slice(body)?;
    Ok(out)
}

/// The one spelling of a job's frame.
pub fn encode_job(alloc: Global, job: &Job) -> Result<Vec<u8>, NoMemory>
    requires { FitsJob (job_of job.now) }
    ensures { IfOk result (λ v. v.items ≡ spell (Task (job_of job.now))) }
{
    let body = job_body(alloc, job)?;
    framed(alloc, b'J', &body)
}

/// The one spelling of a setup's frame.
pub fn encode_setup(alloc: Global, roots: &Roots) -> Result<Vec<u8>, NoMemory>
    requires { FitsRoots (roots_of roots.now) }
    ensures { IfOk result (λ v. v.items ≡ spell (Setup (roots_of roots.now))) }
{
    let mut body = Vec::new(alloc);
    put_text(&mut body, &roots.tree)?;
    put_text(&mut body, &roots.repo)?;
    framed(alloc, b'S', &body)
}

/// The one spelling of a frame that keeps the rules.
pub fn encode_frame(alloc: Global, frame: &Frame) -> Result<Vec<u8>, NoMemory>
    requires { FitsFrame (frame_of frame.now) }
    ensures { IfOk result (λ v. v.items ≡ spell (frame_of frame.now)) }
{
    match frame {
        Frame::Setup(roots) => encode_setup(alloc, roots),
        Frame::Job(job) => encode_job(alloc, job),
        Frame::Part(bytes) => framed(alloc, b'P', bytes),
        Frame::End { length, sum } => {
            let mut body = Vec::new(alloc);
            body.extend_from_slice(&length.to_be_bytes())?;
            body.extend_from_slice(&sum.0)?;
            framed(alloc, b'E', &body)
        }
        Frame::Vanished => framed(alloc, b'V', &[]),
        Frame::Unread => framed(alloc, b'U', &[]),
    }
}
