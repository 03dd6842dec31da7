// Plays many calls, one after another.
ghost use Rattle.std.specs.Prelude.{◌≡◌, ◌++◌, ◌∷◌, [], IfOk, OnOk};
ghost use Rattle.program_crashes.specs.Lists.{Plays};

use crate::call_or_crash::{Act, Ended, PlayFault, play_one};
use crate::disks::Disks;
use std::alloc::Global;

// Adds how a call ended.
fn note(ended: &mut Vec<Ended>, last: Ended) -> Result<(), PlayFault>
    ensures { OnOk result (ended.new.items ≡ ended.old.items ++ last ∷ []) }
{
    match ended.push(last) {
        Ok(()) => Ok(()),
        Err(_) => Err(PlayFault::NoMemory),
    }
}

/// Plays acts one after another, and returns how each call ended: from disks that keep a list of calls they lead to
/// disks that keep it with theirs, in their order. Each call that succeeded gave what it promises of the repository
/// that the calls before it made. Each file is there of which one was an acknowledged push, unless a later step removed
/// it. Where one waits for steps of other processes, these have to push for the stanza that its arguments ask for.
pub fn play(alloc: Global, disks: Disks, acts: Vec<Act>) -> Result<(Disks, Vec<Ended>), PlayFault>
    ensures plays { IfOk result (λ r. Plays acts.items r.1.items disks r.0) }
{
    let mut last = disks;
    let mut ended = Vec::new(alloc);
    for act in acts {
        let (next, how) = play_one(alloc, last, act)?;
        last = next;
        note(&mut ended, how)?;
    }
    Ok((last, ended))
}
