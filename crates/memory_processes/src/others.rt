// Other processes in memory.
ghost use Rattle.std.specs.Prelude.{◌≡◌, ◌<◌, ◌∷◌, [], Some, length, map, string_bytes, IfOk};
ghost use Rattle.memory_processes.specs.Others.{account_of, HasNoTurns, IsSameState};

use crate::turn::OtherTurn;
use archive_lookup::{OtherProcesses, TurnError};
use base_devices::{DeviceError, Disk, NotThere};
use boxcar::tag::{Names, Tag};
use std::alloc::{AllocError, Global};

// One more than a count that only clauses know, so that it has no end.
struct OneMore;

impl Names<Tag> for OneMore {
    ghost numbers = { λ count. 0 ∷ count.numbers };
}

/// Other processes that take these steps for a stanza, one after another, and then steps in which they push nothing.
/// Each of them is known.
#[derive(Drop)]
pub struct MemProcesses {
    alloc: Global,
    stanza: String,
    list: Vec<OtherTurn>,
    // how many of these were taken
    at: usize,
    // how many were taken after them
    following: Tag,
    turns: u64,
    // the arguments of each start, and the numbers of the calls of `start` that are to fail
    started: Vec<Vec<String>>,
    starts: u64,
    fails: Vec<u64>,
    faults: u64,
    ghost order: { at < length list.items → following.numbers ≡ [] },
}

// The same arguments.
fn copy_of(alloc: Global, arguments: &[String]) -> Result<Vec<String>, AllocError>
    ensures { IfOk result (λ copy. map string_bytes copy.items ≡ map string_bytes arguments.now) }
{
    let mut copy = Vec::new(alloc);
    for word in arguments {
        copy.push(word.clone()?)?;
    }
    Ok(copy)
}

impl MemProcesses {
    /// Those that push for this stanza, and have taken none of these steps.
    pub fn new(alloc: Global, stanza: String, list: Vec<OtherTurn>) -> Self
        ensures state { HasNoTurns stanza (⟦<MemProcesses as OtherProcesses<NotThere, NotThere>>⟧.state result) }
        ensures list { result.list ≡ list }
    {
        MemProcesses {
            alloc,
            stanza,
            list,
            at: 0,
            following: Tag::empty(),
            turns: 0,
            started: Vec::new(alloc),
            starts: 0,
            fails: Vec::new(alloc),
            faults: 0,
        }
    }

    /// The same, except that the calls of `start` with these numbers fail, the first being 0.
    pub fn failing(mut self, fails: Vec<u64>) -> Self
        ensures state { IsSameState (⟦<MemProcesses as OtherProcesses<NotThere, NotThere>>⟧.state) self result }
    {
        self.fails = fails;
        self
    }

    /// The arguments of each start.
    pub fn started(&self) -> &[Vec<String>]
        ensures { result.now ≡ self.now.started.items }
    {
        &self.started
    }

    /// The stanza for which they push.
    pub fn stanza(&self) -> &str
        ensures { result.now ≡ string_bytes self.now.stanza }
    {
        &self.stanza
    }

    /// How many steps succeeded.
    pub fn turns(&self) -> u64
        ensures { result ≡ self.now.turns }
    {
        self.turns
    }
}

impl<D: Disk, S: Disk> OtherProcesses<D, S> for MemProcesses {
    ghost state = { λ it. record {
      account = Some (account_of (string_bytes it.stanza) it.list.items it.at it.following.numbers);
      turns = it.turns;
      started = Some (map (λ arguments. map string_bytes arguments.items) it.started.items);
      faults = it.faults;
    } };

    fn turn(&mut self, repo: &mut D, spool: &mut S) -> Result<(), TurnError> {
        if self.at >= self.list.len() {
            self.following = Tag::of::<Tag, OneMore>(&self.following);
            self.turns = self.turns.saturating_add(1);
            return Ok(());
        }
        let stanza = self.stanza.as_str();
        let came = self.list[self.at].take(self.alloc, repo, spool, stanza);
        self.list[self.at].note(came);
        self.at += 1;
        if came.done.is_ok() {
            self.turns = self.turns.saturating_add(1);
        }
        came.done
    }

    fn start(&mut self, arguments: &[String]) -> Result<(), DeviceError> {
        let number = self.starts;
        self.starts = self.starts.saturating_add(1);
        if self.fails.contains(&number) {
            self.faults = self.faults.saturating_add(1);
            return Err(DeviceError::Failed);
        }
        let Ok(arguments) = copy_of(self.alloc, arguments) else {
            return Err(DeviceError::NoMemory);
        };
        match self.started.push(arguments) {
            Ok(()) => Ok(()),
            Err(_) => Err(DeviceError::NoMemory),
        }
    }
}
