// What a crash leaves of a disk in memory.
ghost use Rattle.std.specs.Prelude.{◌≡◌, ℕ, List, true, false, nat_lt, length, IsErrOf, IfOk, OnOk, IsSome, Some, None, map};
ghost use Rattle.base_devices.specs.Content.{set_at};
ghost use Rattle.memory_devices.specs.Agrees.{bytes_at};
ghost use Rattle.memory_devices.specs.declared.image.ImageFault.TheVariants.{NoMemory};
ghost use Rattle.memory_devices.specs.State.{given_at};
ghost use Rattle.memory_devices.specs.Replay.{states_in, value_of};
ghost use Rattle.memory_devices.specs.Image.{positions_at, positions_in, image_of, are_unsynced, are_kept};
ghost use Rattle.memory_devices.specs.Chosen.{AreNotUnsynced, left_by, value_left};
ghost use Rattle.memory_devices.specs.Listed.{ListsUnsyncedIn};

use crate::held::{Names, names_of};
use crate::replay::{Traces, is_unsynced};
use crate::trace::Trace;
use std::alloc::{AllocError, AllocFailed, Global};
use std::collections::BTreeMap;

type Positions = BTreeMap<String, u32>;

/// Why no image is given.
#[derive(Clone, Copy, Debug, PartialEq, Eq)]
pub enum ImageFault {
    /// Bytes were given for a name that isn't unsynced.
    NotUnsynced,
    /// A position isn't below the number of the name's kept values.
    Position,
    NoMemory,
}

impl From<AllocError> for ImageFault {
    ghost from_gives = { λ _ e. e ≡ NoMemory };

    fn from(_error: AllocError) -> Self {
        ImageFault::NoMemory
    }
}

impl<T: Drop> From<AllocFailed<T>> for ImageFault {
    ghost from_gives = { λ _ e. e ≡ NoMemory };

    fn from(_error: AllocFailed<T>) -> Self {
        ImageFault::NoMemory
    }
}

/// The unsynced names.
pub(crate) fn unsynced_in(alloc: Global, traces: &Traces) -> Result<Vec<String>, AllocError>
    ensures { IfOk result (λ names. ListsUnsyncedIn (states_in traces.now) names.items) }
{
    let mut names = Vec::new(alloc);
    for (name, trace) in traces {
        if trace.is_unsynced() {
            names.push(name.clone()?)?;
        }
    }
    Ok(names)
}

/// The values that a name keeps, the first of them first.
pub(crate) fn kept_in(
    alloc: Global,
    traces: &Traces,
    name: &str,
) -> Result<Vec<Option<Vec<u8>>>, AllocError>
    ensures { IfOk result (λ v. map value_of v.items ≡ (states_in traces.now name.now).kept) }
{
    match traces.get(name) {
        Some(trace) => trace.kept(alloc),
        None => {
            let mut values = Vec::new(alloc);
            values.push(None)?;
            Ok(values)
        }
    }
}

/// The names with bytes that a crash leaves, with the bytes of the unsynced ones and the position of a kept value for
/// others.
pub(crate) fn image_in(
    alloc: Global,
    traces: &Traces,
    choice: &[(String, u32)],
    unsynced: &[(String, Vec<u8>)],
) -> Result<Vec<(String, Vec<u8>)>, ImageFault>
    ensures content { IfOk result
        (λ x. given_at x.items ≡ image_of (states_in traces.now) choice.now unsynced.now) }
    ensures unsynced { OnOk result (are_unsynced (states_in traces.now) unsynced.now ≡ true) }
    ensures kept { OnOk result (are_kept (states_in traces.now) choice.now ≡ true) }
    ensures not_unsynced { IsErrOf result ImageFault.NotUnsynced
        → AreNotUnsynced (states_in traces.now) unsynced.now }
    ensures position { IsErrOf result ImageFault.Position → are_kept (states_in traces.now) choice.now ≡ false }
{
    if !all_unsynced(traces, unsynced) {
        return Err(ImageFault::NotUnsynced);
    }
    if !all_kept(traces, choice) {
        return Err(ImageFault::Position);
    }
    let given = names_of(alloc, unsynced)?;
    let positions = positions_of(alloc, choice)?;
    Ok(left_in(alloc, traces, &positions, &given)?)
}

// Whether each of the names is unsynced.
fn all_unsynced(traces: &Traces, names: &[(String, Vec<u8>)]) -> bool
    ensures { result ≡ are_unsynced (states_in traces.now) names.now }
{
    for (name, _bytes) in names {
        if !is_unsynced(traces, name) {
            return false;
        }
    }
    true
}

// Whether each of the names has a kept value at its position.
fn all_kept(traces: &Traces, choice: &[(String, u32)]) -> bool
    ensures { result ≡ are_kept (states_in traces.now) choice.now }
{
    for (name, position) in choice {
        if !is_kept(traces, name, *position) {
            return false;
        }
    }
    true
}

// Whether the name has a kept value at that position.
fn is_kept(traces: &Traces, name: &str, position: u32) -> bool
    ensures { result ≡ nat_lt position (length (states_in traces.now name.now).kept) }
{
    match traces.get(name) {
        Some(trace) => (position as usize) < trace.kept_count(),
        None => position == 0,
    }
}

// A map of positions, the last of each name counting.
fn positions_of(alloc: Global, choice: &[(String, u32)]) -> Result<Positions, AllocError>
    ensures { IfOk result (λ m. positions_in m ≡ positions_at choice.now) }
{
    let mut positions = BTreeMap::new(alloc);
    for (name, position) in choice {
        put_position(alloc, &mut positions, name, *position)?;
    }
    Ok(positions)
}

fn put_position(
    alloc: Global,
    positions: &mut Positions,
    name: &str,
    position: u32,
) -> Result<(), AllocError>
    ensures { OnOk result (positions_in positions.new
        ≡ set_at name.now (Some position) (positions_in positions.old)) }
{
    let key = String::from_str(alloc, name)?;
    positions.insert(key, position)?;
    Ok(())
}

// The names with bytes that a crash leaves.
fn left_in(
    alloc: Global,
    traces: &Traces,
    positions: &Positions,
    given: &Names,
) -> Result<Vec<(String, Vec<u8>)>, AllocError>
    requires { (n : List ℕ) → IsSome (bytes_at given.now n) → (states_in traces.now n).unsynced ≡ true }
    ensures { IfOk result (λ names. given_at names.items ≡ left_by traces.now positions.now given.now) }
{
    let mut names = Vec::new(alloc);
    for (name, trace) in traces {
        let value = left_at(alloc, name, trace, positions, given)?;
        if let Some(bytes) = value {
            names.push((name.clone()?, bytes))?;
        }
    }
    Ok(names)
}

// What a crash leaves at a name.
fn left_at(
    alloc: Global,
    name: &str,
    trace: &Trace,
    positions: &Positions,
    given: &Names,
) -> Result<Option<Vec<u8>>, AllocError>
    ensures { IfOk result (λ v. value_of v ≡ value_left name.now trace.now positions.now given.now) }
{
    match given.get(name) {
        Some(bytes) => Ok(Some(bytes.to_vec(alloc)?)),
        None => trace.pick(alloc, positions.get(name).copied()),
    }
}
