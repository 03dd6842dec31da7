// Rehearses a sample cluster's whole life.
ghost use Rattle.std.specs.Prelude.{◌≡◌, ◌≤◌, ◌++◌, ◌⊎◌, true, IfOk, IfErr, IfSome, string_bytes};
ghost use Rattle.base_devices.specs.States.{CallsProperly};
ghost use Rattle.base_model.specs.StanzaName.{is_stanza};
ghost use Rattle.base_sample.specs.Having.{IsEmpty};
ghost use Rattle.base_crash_lists.specs.Beside.{StaysBeside};
ghost use Rattle.worker_pool.specs.Run.{AreReady};
ghost use Rattle.cmd_rehearse.specs.Advancing.{StaysOpen};
ghost use Rattle.cmd_rehearse.specs.Rehearsing.{count_of, IsKnown, IsKnownBehind, IfEarly};
ghost use Rattle.cmd_rehearse.specs.Telling.{summary_of};
ghost use Rattle.cmd_rehearse.specs.Calls.{HoldsBoth, LifeHalt, RehearseHalt, summary_by, GoesThrough, Rehearses};
ghost use Rattle.worker_pool.specs.Pools.{links_in};

use crate::cluster_life::{Lived, live};
use crate::fault::{RehearseFault, StepFault, of_folder, of_step};
use crate::final_restore::{RehearsalEnd, end};
use crate::order::RehearseOrder;
use crate::stanza_setup::check_new;
use crate::telling::{Summary, summary_of};
use base_devices::{Clock, DataFolder, Disk, Link, Locks, Scheduler};
use base_sample::make_cluster;
use cmd_types::{Halt, Outcome};
use std::alloc::{AllocError, Global};
use worker_pool::Pool;

// How many findings a verification reported.
fn count_of(outcome: &Outcome) -> usize
    ensures { result ≡ count_of outcome.now }
{
    match outcome {
        Outcome::Finished { .. } | Outcome::Absent { .. } => 0,
        Outcome::FindingsFound { count, .. } => *count,
    }
}

// These lines after what was found.
fn add_lines(found: Outcome, more: &str) -> Result<Outcome, AllocError>
    requires { IsKnown found }
    ensures { IfOk result (IsKnownBehind more.now found) }
{
    match found {
        Outcome::Finished { lines } => {
            let mut lines = lines;
            lines.push_str(more)?;
            Ok(Outcome::Finished { lines })
        }
        Outcome::FindingsFound { lines, count } => {
            let mut lines = lines;
            lines.push_str(more)?;
            Ok(Outcome::FindingsFound { lines, count })
        }
        Outcome::Absent { .. } => unreachable!(),
    }
}

// What was found, and then the summary.
fn tell(
    alloc: Global,
    number: u32,
    lived: &Lived,
    ended: RehearsalEnd,
) -> Result<Outcome, AllocError>
    requires number { number ≤ 64 }
    requires known { IsKnown ended.found }
    ensures { IfOk result (IsKnownBehind (summary_of number (summary_by lived.now ended)) ended.found) }
{
    let summary = Summary {
        first: lived.first,
        second: lived.second,
        third: lived.third,
        expired: lived.expired,
        kept: ended.kept,
        restored: ended.restored,
        findings: count_of(&ended.found),
    };
    let lines = summary_of(alloc, number, &summary)?;
    add_lines(ended.found, &lines)
}

// The steps of a rehearsal, in a data folder that has the cluster.
fn go<D: Disk, T: DataFolder, C: Clock, K: Locks, L: Link, U: Scheduler>(
    alloc: Global,
    repo: &mut D,
    tree: &mut T,
    clock: &mut C,
    locks: &K,
    pool: &mut Pool<L, U>,
    order: &RehearseOrder<'_>,
) -> Result<Outcome, Halt<StepFault>>
    requires locked { HoldsBoth order.now.stanza.now (K.state locks.now) }
    requires ready { AreReady (links_in L.link_state pool.old) }
    requires stanza { is_stanza order.now.stanza.now ≡ true }
    ensures lives { GoesThrough order.now result (D.state repo.old) (D.state repo.new) (T.state tree.new) }
    ensures beside { StaysBeside order.now.stanza.now (D.state repo.old).view (D.state repo.new).view }
    ensures frame { CallsProperly (D.state repo.old) (D.state repo.new) }
    ensures folder { StaysOpen (T.state tree.old) (T.state tree.new) }
    ensures later { (C.state clock.old).faults ≤ (C.state clock.new).faults }
    ensures least { (C.state clock.old).least ≤ (C.state clock.new).least }
    ensures cause { LifeHalt D.state T.state C.state order.now result
        repo.old repo.new tree.old tree.new clock.old clock.new }
{
    let lived = live(alloc, repo, tree, clock, locks, pool, order)?;
    let ended = end(alloc, repo, tree, pool, order)?;
    Ok(tell(alloc, order.number, &lived, ended)?)
}

/// Rehearses the whole life of a cluster: it is made with its stanza and its segments, backed up three times, expired,
/// damaged, restored and verified. What was found is reported, and then a summary. As long as it has the locks nobody
/// can release them.
pub fn rehearse<D: Disk, T: DataFolder, C: Clock, K: Locks, L: Link, U: Scheduler>(
    alloc: Global,
    repo: &mut D,
    tree: &mut T,
    clock: &mut C,
    locks: &K,
    pool: &mut Pool<L, U>,
    order: &RehearseOrder<'_>,
) -> Result<Outcome, Halt<RehearseFault>>
    requires locked { HoldsBoth order.now.stanza.now (K.state locks.now) }
    requires ready { AreReady (links_in L.link_state pool.old) }
    requires stanza { is_stanza order.now.stanza.now ≡ true }
    // In the log it is one command: a part of it is done after every answer and at each moment, all of it at Ok, and
    // nothing where it is refused before its first step. At Ok the lines say how its steps ended.
    ensures lives { Rehearses order.now result (D.state repo.old) (D.state repo.new) (T.state tree.new) }
    ensures beside { StaysBeside order.now.stanza.now (D.state repo.old).view (D.state repo.new).view }
    ensures frame { CallsProperly (D.state repo.old) (D.state repo.new) }
    // A refusal before its first step leaves the data folder unchanged, and so does every answer where that isn't
    // empty.
    ensures nodes { IfErr result (IfEarly ((T.state tree.new).nodes ≡ (T.state tree.old).nodes)) }
    ensures left { ((T.state tree.new).nodes ≡ (T.state tree.old).nodes) ⊎ IfSome (T.state tree.old).nodes IsEmpty }
    ensures folder { StaysOpen (T.state tree.old) (T.state tree.new) }
    ensures later { (C.state clock.old).faults ≤ (C.state clock.new).faults }
    ensures least { (C.state clock.old).least ≤ (C.state clock.new).least }
    ensures cause { RehearseHalt D.state T.state C.state order.now result
        repo.old repo.new tree.old tree.new clock.old clock.new }
{
    check_new(alloc, repo, order.stanza)?;
    if let Err(fault) = make_cluster(alloc, tree, order.number) {
        return Err(of_folder(fault));
    }
    match go(alloc, repo, tree, clock, locks, pool, order) {
        Ok(outcome) => Ok(outcome),
        Err(halt) => Err(of_step(halt)),
    }
}
