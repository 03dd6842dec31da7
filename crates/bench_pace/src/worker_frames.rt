// What the workers are given, by the spelling of frames.
ghost use Rattle.std.specs.Prelude.{IfOk, IfSome};
ghost use Rattle.worker_protocol.specs.Frames.{FitsJob, FitsRoots};
ghost use Rattle.worker_protocol.specs.Views.{job_of, roots_of};

use std::alloc::{AllocError, Global};
use worker_protocol::{Frame, Job, Roots, decode_frame};

fn add_text(body: &mut Vec<u8>, text: &str) -> Result<(), AllocError> {
    body.extend_from_slice(&u16::try_from(text.len()).unwrap_or(0).to_be_bytes())?;
    body.extend_from_slice(text.as_bytes())
}

fn framed(alloc: Global, kind: u8, body: &[u8]) -> Result<Vec<u8>, AllocError> {
    let mut frame = Vec::new(alloc);
    frame.push(kind)?;
    frame.extend_from_slice(&u32::try_from(body.len()).unwrap_or(0).to_be_bytes())?;
    frame.extend_from_slice(body)?;
    Ok(frame)
}

/// The one root for both; none where the folder is no root's.
pub fn roots_at(alloc: Global, folder: &str) -> Result<Option<Roots>, AllocError>
    ensures { IfOk result (λ r. IfSome r (λ roots. FitsRoots (roots_of roots))) }
{
    let mut body = Vec::new(alloc);
    add_text(&mut body, folder)?;
    add_text(&mut body, folder)?;
    let frame = framed(alloc, b'S', &body)?;
    match decode_frame(alloc, &frame) {
        Ok((Frame::Setup(roots), _)) => Ok(Some(roots)),
        _ => Ok(None),
    }
}

/// The job that reads a file of this many bytes; none where that can't be asked for.
pub fn read_job(alloc: Global, path: &str, size: u64) -> Result<Option<Job>, AllocError>
    ensures { IfOk result (λ r. IfSome r (λ job. FitsJob (job_of job))) }
{
    let mut body = Vec::new(alloc);
    body.push(b'R')?;
    body.extend_from_slice(&1u32.to_be_bytes())?;
    body.push(b'T')?;
    add_text(&mut body, path)?;
    body.extend_from_slice(&0u64.to_be_bytes())?;
    body.extend_from_slice(&size.to_be_bytes())?;
    let frame = framed(alloc, b'J', &body)?;
    match decode_frame(alloc, &frame) {
        Ok((Frame::Job(job), _)) => Ok(Some(job)),
        _ => Ok(None),
    }
}
