// The stages of a command, whichever it is, over all that is handed to the program.
ghost use Rattle.std.specs.Prelude.{◌≡◌, true, false, Some, None, OnOk, IfErr, [], string_bytes, map};
ghost use Rattle.cmd_types.specs.Halts.{HaltCause, Never};
ghost use Rattle.cmd_types.specs.World.{Failed, AreRead};
ghost use Rattle.cmd_setup.specs.Taking.{AreNames, HoldsAtMost};
ghost use Rattle.worker_pool.specs.Pools.{links_in};
ghost use Rattle.cmd_trait.specs.Code.{place_of, AreWorkers};
ghost use Rattle.cmd_trait.specs.CallEffect.{CallEffect, Brackets, SamePlaces, OpensPlaces, ArePlacesOpened, TakesAll, OnlyLocked, Carries};
ghost use Rattle.cmd_trait.specs.Clauses.{HoldsLocks, IsReadyFor, Between, OnKnown, OnCall, OnPlaces, AtOk, OnUnknown, WhereNoLock};
ghost use Rattle.cmd_trait.specs.Kept.{KeepsInAndOut, KeepsLocked, KeepsSpool, KeepsWorkers, OnlyPlaces};

use crate::command::Command;
use crate::fault::{Fault, own_end, own_halt};
use crate::output::answer;
use crate::outside::{Modelled, Outside};
use crate::places::Places;
use archive_lookup::OtherProcesses;
use base_devices::{
    Clock, DataFolder, Disk, InputFiles, Link, Locks, OutputStream, Scheduler, ServerConnection,
};
use cmd_setup::{
    LockNames, Ready, lock_names, open_disk, open_tree, prepare, release_locks, take_locks,
};
use cmd_types::{Halt, Object, Outcome, Plan, StageFault};
use std::alloc::Global;

// The data folder, where it is opened.
fn folder_of<'a>(places: &Places<'a>, plan: &Plan) -> Option<&'a str>
    ensures some { plan.now.folder ≡ true → result ≡ Some places.now.data_folder }
    ensures none { plan.now.folder ≡ false → result ≡ None }
{
    if plan.folder {
        Some(places.data_folder)
    } else {
        None
    }
}

impl<
    D: Disk,
    S: Disk,
    T: DataFolder,
    V: ServerConnection,
    A: OtherProcesses<D, S>,
    C: Clock,
    K: Locks,
    I: InputFiles,
    O: OutputStream,
    L: Link,
    U: Scheduler,
> Outside<D, S, T, V, A, C, K, I, O, L, U> {
    // Opens the places of the command: the spool, the data folder and the repository.
    fn open<'a, X: Command<'a>>(
        &mut self,
        command: &X,
        places: &Places<'a>,
        plan: &Plan,
    ) -> Result<(), Halt<StageFault>>
        requires { plan.now ≡ (X.meaning command.now).plan }
        ensures read { Between ⟦<Self as Modelled>⟧.known AreRead self.old self.new }
        ensures places { OnPlaces ⟦<Self as Modelled>⟧.known OpensPlaces places.now (X.meaning command.now)
            self.old self.new }
        ensures opened { AtOk ⟦<Self as Modelled>⟧.known ArePlacesOpened places.now (X.meaning command.now)
            self.old self.new result }
        ensures cause { IfErr result
            (HaltCause Never (OnKnown ⟦<Self as Modelled>⟧.known Failed self.old self.new)) }
        ensures rest { OnlyPlaces self.old self.new }
        ensures spool { (X.meaning command.now).spool ≡ None → self.new.spool ≡ self.old.spool }
        ensures tree { plan.now.folder ≡ false → self.new.tree ≡ self.old.tree }
    {
        open_disk(&mut self.spool, Object::Spool, command.spool())?;
        open_tree(&mut self.tree, folder_of(places, plan))?;
        open_disk(&mut self.repo, Object::Repo, Some(places.repository))?;
        Ok(())
    }

    // The locks are taken; under them the stanza is synced and the control file and the pairs are read; and then comes
    // the command's own part.
    fn locked<'a, X: Command<'a>>(
        &mut self,
        alloc: Global,
        command: &X,
        places: &Places<'a>,
        plan: &Plan,
        names: &LockNames,
        order: X::Order,
    ) -> Result<Outcome, Fault<X::Fault>>
        requires workers { AreWorkers (links_in L.link_state self.old.pool) }
        requires free { (K.state self.old.locks).taken ≡ [] }
        requires plan { plan.now ≡ (X.meaning command.now).plan }
        requires staged { (X.meaning command.now).staged ≡ true }
        requires names { AreNames names.now plan.now places.now.stanza.now }
        requires order { X.is_order command.now (place_of places.now) order }
        ensures did { OnCall ⟦<Self as Modelled>⟧.known CallEffect places.now (X.meaning command.now)
            self.old self.new result }
        ensures places { Between ⟦<Self as Modelled>⟧.known SamePlaces self.old self.new }
        ensures held { HoldsAtMost plan.now places.now.stanza.now (K.state self.new.locks).taken }
        ensures ever_taken { AtOk ⟦<Self as Modelled>⟧.known TakesAll places.now (X.meaning command.now)
            self.old self.new result }
        ensures only { OnPlaces ⟦<Self as Modelled>⟧.known OnlyLocked places.now (X.meaning command.now)
            self.old self.new }
        ensures tree { plan.now.folder ≡ false → self.new.tree ≡ self.old.tree }
        ensures quiet { (X.meaning command.now).uses.server ≡ false → self.new.server ≡ self.old.server }
        ensures alone { (X.meaning command.now).uses.workers ≡ false → KeepsWorkers self.old self.new }
        ensures waits { (X.meaning command.now).uses.spool ≡ false → KeepsSpool self.old self.new }
        ensures idle { WhereNoLock plan.now (self.new.locks ≡ self.old.locks) }
        ensures rest { KeepsInAndOut self.old self.new }
    {
        let stanza = places.stanza;
        take_locks(
            alloc,
            &mut self.locks,
            places.lock_folder,
            names,
            plan,
            stanza,
        )?;
        let ready = prepare(
            alloc,
            &mut self.repo,
            &mut self.tree,
            &self.locks,
            stanza,
            plan,
        )?;
        own_end(command.run(alloc, self, places, order, ready))
    }

    // What is handed to a command of which the places alone are opened: nothing was read.
    fn unread<'a, X: Command<'a>>(&self, _command: &X, _places: &Places<'a>) -> Ready
        requires free { (K.state self.now.locks).taken ≡ [] }
        requires staged { (X.meaning _command.now).staged ≡ false }
        ensures locked { HoldsLocks (X.meaning _command.now) _places.now (K.state self.now.locks).taken }
        ensures ready { IsReadyFor (X.meaning _command.now) _places.now (D.state self.now.repo) (T.state self.now.tree)
            result }
    {
        Ready {
            control: None,
            archive: None,
            backup: None,
        }
    }

    // The places are opened, and the command's own part comes at once.
    fn alone<'a, X: Command<'a>>(
        &mut self,
        alloc: Global,
        command: &X,
        places: &Places<'a>,
        order: X::Order,
        ready: Ready,
    ) -> Result<Outcome, Fault<X::Fault>>
        requires workers { AreWorkers (links_in L.link_state self.old.pool) }
        requires locked { HoldsLocks (X.meaning command.now) places.now (K.state self.old.locks).taken }
        requires staged { (X.meaning command.now).staged ≡ false }
        requires order { X.is_order command.now (place_of places.now) order }
        requires ready { IsReadyFor (X.meaning command.now) places.now (D.state self.old.repo) (T.state self.old.tree)
            ready }
        ensures did { OnCall ⟦<Self as Modelled>⟧.known CallEffect places.now (X.meaning command.now)
            self.old self.new result }
        ensures places { Between ⟦<Self as Modelled>⟧.known SamePlaces self.old self.new }
        ensures tree { (X.meaning command.now).plan.folder ≡ false → self.new.tree ≡ self.old.tree }
        ensures quiet { (X.meaning command.now).uses.server ≡ false → self.new.server ≡ self.old.server }
        ensures alone { (X.meaning command.now).uses.workers ≡ false → KeepsWorkers self.old self.new }
        ensures waits { (X.meaning command.now).uses.spool ≡ false → KeepsSpool self.old self.new }
        ensures rest { KeepsLocked self.old self.new }
    {
        own_end(command.run(alloc, self, places, order, ready))
    }

    // All stages after the arguments: the places are opened, and the command's own part comes under its locks, which
    // are then released; or it comes at once.
    fn staged<'a, X: Command<'a>>(
        &mut self,
        alloc: Global,
        command: &X,
        places: &Places<'a>,
        plan: &Plan,
        order: X::Order,
    ) -> Result<Outcome, Fault<X::Fault>>
        requires workers { AreWorkers (links_in L.link_state self.old.pool) }
        requires free { (K.state self.old.locks).taken ≡ [] }
        requires plan { plan.now ≡ (X.meaning command.now).plan }
        requires order { X.is_order command.now (place_of places.now) order }
        ensures did { OnCall ⟦<Self as Modelled>⟧.known CallEffect places.now (X.meaning command.now)
            self.old self.new result }
        ensures brackets { OnCall ⟦<Self as Modelled>⟧.known Brackets places.now (X.meaning command.now)
            self.old self.new result }
        ensures released { (K.state self.new.locks).taken ≡ [] }
        ensures tree { plan.now.folder ≡ false → self.new.tree ≡ self.old.tree }
        ensures quiet { (X.meaning command.now).uses.server ≡ false → self.new.server ≡ self.old.server }
        ensures alone { (X.meaning command.now).uses.workers ≡ false → KeepsWorkers self.old self.new }
        ensures waits { (X.meaning command.now).uses.spool ≡ false → KeepsSpool self.old self.new }
        ensures idle { WhereNoLock plan.now (self.new.locks ≡ self.old.locks) }
        ensures rest { KeepsInAndOut self.old self.new }
    {
        self.open(command, places, plan)?;
        if !command.is_staged() {
            let ready = self.unread(command, places);
            return self.alone(alloc, command, places, order, ready);
        }
        let names = lock_names(alloc, plan, places.stanza)?;
        let ended = self.locked(alloc, command, places, plan, &names, order);
        release_locks(&mut self.locks, &names, plan, places.stanza);
        ended
    }

    /// Does what the command asks for, prints the output, and returns the status that the program ends with. `unknown`
    /// are the keys of the configuration that are no options.
    pub fn obey<'a, X: Command<'a>>(
        &mut self,
        alloc: Global,
        command: &X,
        places: &Places<'a>,
        unknown: &[String],
    ) -> u8
        requires workers { AreWorkers (links_in L.link_state self.old.pool) }
        requires free { (K.state self.old.locks).taken ≡ [] }
        // It does what the command means.
        ensures carries { OnUnknown ⟦<Self as Modelled>⟧.known Carries places.now (X.meaning command.now)
            unknown.now self.old self.new result }
        ensures released { (K.state self.new.locks).taken ≡ [] }
        // What the command doesn't use is unchanged.
        ensures tree { (X.meaning command.now).plan.folder ≡ false → self.new.tree ≡ self.old.tree }
        ensures quiet { (X.meaning command.now).uses.server ≡ false → self.new.server ≡ self.old.server }
        ensures alone { (X.meaning command.now).uses.workers ≡ false → KeepsWorkers self.old self.new }
        ensures waits { (X.meaning command.now).uses.spool ≡ false → KeepsSpool self.old self.new }
        ensures idle { WhereNoLock (X.meaning command.now).plan (self.new.locks ≡ self.old.locks) }
        ensures config { self.new.config ≡ self.old.config }
    {
        let order = match command.read(alloc, places) {
            Ok(order) => order,
            Err(halt) => {
                let fault = own_halt(halt);
                return answer(alloc, &mut self.out, command, unknown, Err(fault));
            }
        };
        let plan = command.plan();
        let ended = self.staged(alloc, command, places, &plan, order);
        answer(alloc, &mut self.out, command, unknown, ended)
    }
}
