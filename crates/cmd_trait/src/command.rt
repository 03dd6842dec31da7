// A command: what it means, and what it does.
ghost use Rattle.std.specs.Prelude.{◌≡◌, option_map, map, false, true, IfOk, IfErr, OnOk};
ghost use Rattle.cmd_types.specs.Halts.{HaltCause, Never};
ghost use Rattle.cmd_trait.specs.Meaning.{Place, Meaning, IsLawful};
ghost use Rattle.cmd_trait.specs.Code.{place_of, AreWorkers};
ghost use Rattle.cmd_trait.specs.CallEffect.{PartEffect};
ghost use Rattle.cmd_trait.specs.Clauses.{OnOwn, HoldsLocks, IsReadyFor};
ghost use Rattle.cmd_trait.specs.Kept.{KeepsLocked, KeepsSpool, KeepsWorkers};
ghost use Rattle.worker_pool.specs.Pools.{links_in};

use crate::outside::{Modelled, Outside};
use crate::places::Places;
use archive_lookup::OtherProcesses;
use base_devices::{
    Clock, DataFolder, Disk, InputFiles, Link, Locks, OutputStream, Scheduler, ServerConnection,
};
use base_text::NoMemory;
use cmd_setup::Ready;
use cmd_types::{Halt, Outcome, Plan};
use std::alloc::Global;

/// A command: what it means, and what it does. Its value holds its arguments as they were given.
pub trait Command<'a> {
    /// Why it refuses, for what it alone finds.
    type Fault: Drop;

    /// Its own arguments, read.
    type Order: Drop;

    /// What it means: all that `run` says of it.
    ghost meaning: { Self → Meaning Self.Fault };

    /// What the proof of the stages needs of that.
    ghost lawful: { (c : Self) → IsLawful (meaning c) };

    /// Its arguments say this.
    ghost is_order: { Self → Place → Self.Order → Type 0 };

    /// What the stages do for it.
    fn plan(&self) -> Plan
        ensures { result ≡ (meaning self.now).plan };

    /// Whether it goes through all stages, or through the opening of its places alone.
    fn is_staged(&self) -> bool
        ensures { result ≡ (meaning self.now).staged };

    /// The spool that is opened, where one is.
    fn spool(&self) -> Option<&str>
        ensures { option_map (λ p. p.now) result ≡ (meaning self.now).spool };

    fn status(&self, fault: &Self::Fault) -> u8
        ensures { result ≡ (meaning self.now).status fault.now };

    fn message(&self, alloc: Global, fault: &Self::Fault) -> Result<Vec<u8>, NoMemory>
        ensures { IfOk result (λ text. text.items ≡ (meaning self.now).message fault.now) };

    /// The lines of what it has done before it was refused.
    fn lines<'b>(&self, fault: &'b Self::Fault) -> &'b str
        ensures { result.now ≡ (meaning self.now).lines fault.now };

    /// Reads its own arguments. They are refused before anything is opened.
    fn read(&self, alloc: Global, places: &Places<'a>) -> Result<Self::Order, Halt<Self::Fault>>
        ensures order { IfOk result (is_order self.now (place_of places.now)) }
        ensures fit { OnOk result ((meaning self.now).arguments (place_of places.now)) }
        ensures cause { IfErr result (HaltCause ((meaning self.now).arguments_cause (place_of places.now)) Never) };

    /// Its own part, after the stages.
    fn run<
        D: Disk,
        S: Disk,
        T: DataFolder,
        V: ServerConnection,
        A: OtherProcesses<D, S>,
        C: Clock,
        K: Locks,
        I: InputFiles,
        O: OutputStream,
        L: Link,
        U: Scheduler,
    >(
        &self,
        alloc: Global,
        outside: &mut Outside<D, S, T, V, A, C, K, I, O, L, U>,
        places: &Places<'a>,
        order: Self::Order,
        ready: Ready,
    ) -> Result<Outcome, Halt<Self::Fault>>
        requires workers { AreWorkers (links_in L.link_state outside.old.pool) }
        requires locked { HoldsLocks (meaning self.now) places.now (K.state outside.old.locks).taken }
        requires order { is_order self.now (place_of places.now) order }
        requires ready { IsReadyFor (meaning self.now) places.now (D.state outside.old.repo) (T.state outside.old.tree)
            ready }
        ensures ran { OnOwn ⟦<Outside<D, S, T, V, A, C, K, I, O, L, U> as Modelled>⟧.known PartEffect places.now
            (meaning self.now) outside.old outside.new result }
        ensures tree { (meaning self.now).plan.folder ≡ false → outside.new.tree ≡ outside.old.tree }
        ensures quiet { (meaning self.now).uses.server ≡ false → outside.new.server ≡ outside.old.server }
        ensures alone { (meaning self.now).uses.workers ≡ false → KeepsWorkers outside.old outside.new }
        ensures waits { (meaning self.now).uses.spool ≡ false → KeepsSpool outside.old outside.new }
        ensures rest { KeepsLocked outside.old outside.new };
}
