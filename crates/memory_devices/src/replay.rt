// What the changes of a disk in memory leave at each name, followed from its first names on.
ghost use Rattle.std.specs.Prelude.{◌≡◌, IfOk, OnOk, None, map, string_bytes};
ghost use Rattle.base_devices.specs.Content.{set_at};
ghost use Rattle.memory_devices.specs.State.{first_state, after, takes_in};
ghost use Rattle.memory_devices.specs.Replay.{states_in, states_of, state_of_trace, changed_at, step_at, begun_at, appended_at, unsynced_at, synced_at, removed_at, swept_at, swept_names, renamed_at, value_of, names_under, each_swept, AgreeBut, removed_other, with_arrived};

use crate::below::is_taken_in;
use crate::change::{Change, Sweep};
use crate::trace::Trace;
use std::alloc::{AllocError, Global};
use std::collections::BTreeMap;

pub(crate) type Traces = BTreeMap<String, Trace>;

// The traces of the names that a disk starts with, the last of each counting.
fn first_traces(alloc: Global, given: &[(String, Vec<u8>)]) -> Result<Traces, AllocError>
    ensures { IfOk result (λ t. states_in t ≡ states_of (first_state given.now)) }
{
    let mut traces = BTreeMap::new(alloc);
    for (name, bytes) in given {
        let trace = Trace::new(alloc, Some(bytes.to_vec(alloc)?))?;
        put(alloc, &mut traces, name, trace)?;
    }
    Ok(traces)
}

/// The traces after these changes.
pub(crate) fn traces_after(
    alloc: Global,
    given: &[(String, Vec<u8>)],
    changes: &[Change],
) -> Result<Traces, AllocError>
    ensures { IfOk result (λ t. states_in t ≡ states_of (after (first_state given.now) changes.now)) }
{
    let mut traces = first_traces(alloc, given)?;
    for change in changes {
        follow(alloc, &mut traces, change)?;
    }
    Ok(traces)
}

// Follows a change.
fn follow(alloc: Global, traces: &mut Traces, change: &Change) -> Result<(), AllocError>
    ensures { OnOk result (states_in traces.new ≡ step_at (states_in traces.old) change.now) }
{
    match change {
        Change::Begun(name) => begin(alloc, traces, name),
        Change::Appended(name, bytes) => append(alloc, traces, name, bytes),
        Change::Unsynced(name) => unsync(alloc, traces, name),
        Change::Synced(name) => sync(alloc, traces, name),
        Change::Renamed(from, to) => rename(alloc, traces, from, to),
        Change::Removed(name) => remove(alloc, traces, name),
        Change::Swept(sweep, folder) => sweep_folder(alloc, traces, *sweep, folder),
    }
}

fn begin(alloc: Global, traces: &mut Traces, name: &str) -> Result<(), AllocError>
    ensures { OnOk result (states_in traces.new ≡ changed_at name.now begun_at (states_in traces.old)) }
{
    let mut trace = take(alloc, traces, name)?;
    trace.begin(alloc);
    put(alloc, traces, name, trace)
}

fn append(alloc: Global, traces: &mut Traces, name: &str, bytes: &[u8]) -> Result<(), AllocError>
    ensures { OnOk result (states_in traces.new
        ≡ changed_at name.now (appended_at bytes.now) (states_in traces.old)) }
{
    let mut trace = take(alloc, traces, name)?;
    trace.append(bytes)?;
    put(alloc, traces, name, trace)
}

fn unsync(alloc: Global, traces: &mut Traces, name: &str) -> Result<(), AllocError>
    ensures { OnOk result (states_in traces.new ≡ changed_at name.now unsynced_at (states_in traces.old)) }
{
    let mut trace = take(alloc, traces, name)?;
    trace.unsync();
    put(alloc, traces, name, trace)
}

fn sync(alloc: Global, traces: &mut Traces, name: &str) -> Result<(), AllocError>
    ensures { OnOk result (states_in traces.new ≡ changed_at name.now synced_at (states_in traces.old)) }
{
    let mut trace = take(alloc, traces, name)?;
    trace.sync(alloc)?;
    put(alloc, traces, name, trace)
}

fn remove(alloc: Global, traces: &mut Traces, name: &str) -> Result<(), AllocError>
    ensures { OnOk result (states_in traces.new ≡ changed_at name.now removed_at (states_in traces.old)) }
{
    let mut trace = take(alloc, traces, name)?;
    trace.remove()?;
    put(alloc, traces, name, trace)
}

fn rename(alloc: Global, traces: &mut Traces, from: &str, to: &str) -> Result<(), AllocError>
    ensures { OnOk result (states_in traces.new ≡ renamed_at from.now to.now (states_in traces.old)) }
{
    let value = value_at(alloc, traces, from)?;
    let unsynced = is_unsynced(traces, from);
    remove_other(alloc, traces, from, to)?;
    arrive(alloc, traces, to, value, unsynced)
}

// Removes a name, but not where it is the other one.
fn remove_other(alloc: Global, traces: &mut Traces, from: &str, to: &str) -> Result<(), AllocError>
    ensures { OnOk result (states_in traces.new ≡ removed_other from.now to.now (states_in traces.old)) }
{
    if from != to {
        remove(alloc, traces, from)?;
    }
    Ok(())
}

// Gives a name the value of another one, which is unsynced or not.
fn arrive(
    alloc: Global,
    traces: &mut Traces,
    name: &str,
    value: Option<Vec<u8>>,
    unsynced: bool,
) -> Result<(), AllocError>
    ensures { OnOk result (states_in traces.new ≡ with_arrived name.now value unsynced (states_in traces.old)) }
{
    let mut trace = take(alloc, traces, name)?;
    trace.arrive(alloc, value, unsynced)?;
    put(alloc, traces, name, trace)
}

fn sweep_folder(
    alloc: Global,
    traces: &mut Traces,
    sweep: Sweep,
    folder: &str,
) -> Result<(), AllocError>
    ensures { OnOk result (states_in traces.new ≡ swept_names sweep folder.now (states_in traces.old)) }
{
    let names = names_taken_in(alloc, traces, sweep, folder)?;
    sweep_each(alloc, traces, sweep, &names)
}

// The names of traces that the sweep takes in.
fn names_taken_in(
    alloc: Global,
    traces: &Traces,
    sweep: Sweep,
    folder: &str,
) -> Result<Vec<String>, AllocError>
    ensures { IfOk result
        (λ x. map string_bytes x.items ≡ names_under (takes_in sweep folder.now) traces.now.entries) }
{
    let mut names = Vec::new(alloc);
    for (name, _trace) in traces {
        if is_taken_in(sweep, name, folder) {
            names.push(name.clone()?)?;
        }
    }
    Ok(names)
}

fn sweep_each(
    alloc: Global,
    traces: &mut Traces,
    sweep: Sweep,
    names: &[String],
) -> Result<(), AllocError>
    ensures { OnOk result (states_in traces.new ≡ each_swept sweep names.now (states_in traces.old)) }
{
    for name in names {
        sweep_name(alloc, traces, sweep, name)?;
    }
    Ok(())
}

fn sweep_name(
    alloc: Global,
    traces: &mut Traces,
    sweep: Sweep,
    name: &str,
) -> Result<(), AllocError>
    ensures { OnOk result (states_in traces.new ≡ changed_at name.now (swept_at sweep) (states_in traces.old)) }
{
    let mut trace = take(alloc, traces, name)?;
    trace.sweep(alloc, sweep)?;
    put(alloc, traces, name, trace)
}

// The value that a name holds.
fn value_at(alloc: Global, traces: &Traces, name: &str) -> Result<Option<Vec<u8>>, AllocError>
    ensures { IfOk result (λ v. value_of v ≡ (states_in traces.now name.now).now) }
{
    match traces.get(name) {
        Some(trace) => trace.value(alloc),
        None => Ok(None),
    }
}

/// Whether a name may be left with any bytes.
pub(crate) fn is_unsynced(traces: &Traces, name: &str) -> bool
    ensures { result ≡ (states_in traces.now name.now).unsynced }
{
    match traces.get(name) {
        Some(trace) => trace.is_unsynced(),
        None => false,
    }
}

// Takes the trace of a name out, to be put back changed.
fn take(alloc: Global, traces: &mut Traces, name: &str) -> Result<Trace, AllocError>
    ensures trace { IfOk result (λ t. state_of_trace t ≡ states_in traces.old name.now) }
    ensures others { AgreeBut name.now (states_in traces.old) (states_in traces.new) }
{
    match traces.remove(name) {
        Some(trace) => Ok(trace),
        None => Trace::new(alloc, None),
    }
}

// Gives a name this trace.
fn put(alloc: Global, traces: &mut Traces, name: &str, trace: Trace) -> Result<(), AllocError>
    ensures { OnOk result (states_in traces.new ≡ set_at name.now (state_of_trace trace) (states_in traces.old)) }
{
    let key = String::from_str(alloc, name)?;
    match traces.insert(key, trace) {
        Ok(_) => Ok(()),
        Err(_) => Err(AllocError),
    }
}
