// The fields of a body, one after the other.
ghost use Rattle.std.specs.Prelude.{◌≡◌, ◌≤◌, take, drop, length, string_bytes, IfOk, Ok};
ghost use Rattle.std.specs.Int.{w16, w32, w64};
ghost use Rattle.std.specs.Str.{is_utf8};
ghost use Rattle.worker_protocol.specs.Views.{rest_of};
ghost use Rattle.worker_protocol.specs.Reading.{Gives, field_at, number_at, letter_at, text_at, root_value, kind_value, is_item_path, item_path_at};

use crate::frames::fault::FrameFault;
use crate::frames::frames::{JobKind, Root};
use repo_names::{check_name, check_name_within};
use std::alloc::Global;

/// What is left of a body: how much by its length, and the bytes that are there.
#[derive(Clone, Copy)]
pub(crate) struct Rest<'a> {
    pub left: u64,
    pub bytes: &'a [u8],
}

/// The next field of a body that ends at `end`.
pub(crate) fn field(size: u64, end: u64, rest: Rest<'_>) -> Result<(&[u8], Rest<'_>), FrameFault>
    requires { rest.left ≤ end }
    ensures value { Gives (λ x. (x.0.now, rest_of x.1)) result (field_at size end (rest_of rest.entry)) }
    ensures length { IfOk result (λ x. length x.0.now ≡ size) }
    ensures left { IfOk result (λ x. x.1.left ≤ end) }
{
    if size <= rest.left {
        if (rest.bytes.len() as u64) < size {
            return Err(FrameFault::Short);
        }
        let (prefix, bytes) = rest.bytes.split_at(size as usize);
        let left = rest.left - size;
        return Ok((prefix, Rest { left, bytes }));
    }
    if (rest.bytes.len() as u64) < rest.left {
        return Err(FrameFault::Short);
    }
    Err(FrameFault::Form {
        at: end - rest.left,
    })
}

#[tactic(auto, unfolding(crate::specs::Reading::number_at))]
fn u16_of(end: u64, rest: Rest<'_>) -> Result<(u16, Rest<'_>), FrameFault>
    requires { rest.left ≤ end }
    ensures value { Gives (λ x. (x.0, rest_of x.1)) result (number_at w16 end (rest_of rest.entry)) }
    ensures left { IfOk result (λ x. x.1.left ≤ end) }
{
    let (bytes, rest) = field(2, end, rest)?;
    Ok((u16::from_be_bytes([bytes[0], bytes[1]]), rest))
}

#[tactic(auto, unfolding(crate::specs::Reading::number_at))]
pub(crate) fn u32_of(end: u64, rest: Rest<'_>) -> Result<(u32, Rest<'_>), FrameFault>
    requires { rest.left ≤ end }
    ensures value { Gives (λ x. (x.0, rest_of x.1)) result (number_at w32 end (rest_of rest.entry)) }
    ensures left { IfOk result (λ x. x.1.left ≤ end) }
{
    let (bytes, rest) = field(4, end, rest)?;
    let number = u32::from_be_bytes([bytes[0], bytes[1], bytes[2], bytes[3]]);
    Ok((number, rest))
}

#[tactic(auto, unfolding(crate::specs::Reading::number_at))]
pub(crate) fn u64_of(end: u64, rest: Rest<'_>) -> Result<(u64, Rest<'_>), FrameFault>
    requires { rest.left ≤ end }
    ensures value { Gives (λ x. (x.0, rest_of x.1)) result (number_at w64 end (rest_of rest.entry)) }
    ensures left { IfOk result (λ x. x.1.left ≤ end) }
{
    let (bytes, rest) = field(8, end, rest)?;
    let number = u64::from_be_bytes([
        bytes[0], bytes[1], bytes[2], bytes[3], bytes[4], bytes[5], bytes[6], bytes[7],
    ]);
    Ok((number, rest))
}

fn root_value(letter: u8) -> Option<Root>
    ensures { result ≡ root_value letter }
{
    match letter {
        b'T' => Some(Root::DataFolder),
        b'R' => Some(Root::Repo),
        _ => None,
    }
}

fn kind_value(letter: u8) -> Option<JobKind>
    ensures { result ≡ kind_value letter }
{
    match letter {
        b'R' => Some(JobKind::Read),
        b'D' => Some(JobKind::Digest),
        _ => None,
    }
}

#[tactic(auto, unfolding(crate::specs::Reading::letter_at))]
pub(crate) fn root_of(end: u64, rest: Rest<'_>) -> Result<(Root, Rest<'_>), FrameFault>
    requires { rest.left ≤ end }
    ensures value { Gives (λ x. (x.0, rest_of x.1)) result (letter_at root_value end (rest_of rest.entry)) }
    ensures left { IfOk result (λ x. x.1.left ≤ end) }
{
    let at = end - rest.left;
    let (letter, rest) = field(1, end, rest)?;
    match root_value(letter[0]) {
        Some(root) => Ok((root, rest)),
        None => Err(FrameFault::Form { at }),
    }
}

#[tactic(auto, unfolding(crate::specs::Reading::letter_at))]
pub(crate) fn kind_of(end: u64, rest: Rest<'_>) -> Result<(JobKind, Rest<'_>), FrameFault>
    requires { rest.left ≤ end }
    ensures value { Gives (λ x. (x.0, rest_of x.1)) result (letter_at kind_value end (rest_of rest.entry)) }
    ensures left { IfOk result (λ x. x.1.left ≤ end) }
{
    let at = end - rest.left;
    let (letter, rest) = field(1, end, rest)?;
    match kind_value(letter[0]) {
        Some(kind) => Ok((kind, rest)),
        None => Err(FrameFault::Form { at }),
    }
}

/// A text after its length.
#[tactic(auto, unfolding(crate::specs::Reading::text_at))]
pub(crate) fn text_of(
    alloc: Global,
    end: u64,
    rest: Rest<'_>,
) -> Result<(String, Rest<'_>), FrameFault>
    requires { rest.left ≤ end }
    ensures value { Gives (λ x. (string_bytes x.0, rest_of x.1)) result (text_at is_utf8 end (rest_of rest.entry)) }
    ensures left { IfOk result (λ x. x.1.left ≤ end) }
{
    let (length, rest) = u16_of(end, rest)?;
    let at = end - rest.left;
    let (bytes, rest) = field(length as u64, end, rest)?;
    let Some(text) = base_text::text_of(bytes) else {
        return Err(FrameFault::Form { at });
    };
    Ok((String::from_str(alloc, text)?, rest))
}

/// The longest path in the repository, in bytes.
const REPO_LIMIT: usize = 1200;

/// Whether the path may be in a job.
fn is_item_path(root: Root, path: &str) -> bool
    ensures { result ≡ is_item_path root path.now }
{
    match root {
        Root::DataFolder => check_name(path).is_ok(),
        Root::Repo => check_name_within(path, REPO_LIMIT).is_ok(),
    }
}

/// An item's path after its length.
#[tactic(auto, unfolding(crate::specs::Reading::text_at))]
pub(crate) fn path_of(
    alloc: Global,
    root: Root,
    end: u64,
    rest: Rest<'_>,
) -> Result<(String, Rest<'_>), FrameFault>
    requires { rest.left ≤ end }
    ensures value { Gives (λ x. (string_bytes x.0, rest_of x.1)) result (item_path_at root end (rest_of rest.entry)) }
    ensures left { IfOk result (λ x. x.1.left ≤ end) }
{
    let (length, rest) = u16_of(end, rest)?;
    let at = end - rest.left;
    let (bytes, rest) = field(length as u64, end, rest)?;
    let Some(path) = base_text::text_of(bytes) else {
        return Err(FrameFault::Form { at });
    };
    if !is_item_path(root, path) {
        return Err(FrameFault::Form { at });
    }
    Ok((String::from_str(alloc, path)?, rest))
}
