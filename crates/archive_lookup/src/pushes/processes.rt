// What other processes do to the repository and the spool while this one waits.
ghost use Rattle.std.specs.Prelude.{◌≡◌, ◌≤◌, ◌+◌, ◌-◌, ◌^◌, None, Err, IsErrOf, IsSome, OnOk, OnErr, is_ok, min, map, string_bytes};
ghost use Rattle.base_devices.specs.States.{CallsProperly};
ghost use Rattle.base_devices.specs.Cause.{HasCause, Rises};
ghost use Rattle.archive_lookup.specs.Turns.{ProcessesState, GoesOn, IsStarted, TurnChanges, TurnGoes, TurnMarks, TurnReceipts};

use base_devices::{DeviceError, Disk, NotThere};

/// Which device's failure ended a step.
#[derive(Clone, Copy, Debug, PartialEq, Eq)]
pub enum TurnError {
    Repo,
    Spool,
    NoMemory,
}

/// What other processes do to the repository and the spool while this one waits: they push files of one stanza.
pub trait OtherProcesses<D: Disk, S: Disk> {
    /// Its steps, the arguments of each start, and its count of faults.
    ghost state: { Self → ProcessesState };

    /// Waits for a step of other processes.
    fn turn(&mut self, repo: &mut D, spool: &mut S) -> Result<(), TurnError>
        ensures account { GoesOn (is_ok result) (state self.old).account (state self.new).account }

        // Its pushes are all that it does to the repository.
        ensures repository { TurnGoes (state self.old) (state self.new) (D.state repo.old) (D.state repo.new) }

        // A receipt that it gives is of a file that it stored before.
        ensures receipts { TurnReceipts (state self.old) (state self.new)
            (D.state repo.old) (D.state repo.new) (S.state spool.old) (S.state spool.new) }
        ensures marks { TurnMarks result (state self.old) (state self.new) (S.state spool.old) (S.state spool.new) }

        // It changes nothing else.
        ensures repo_only { TurnChanges (state self.old) (state self.new) (D.state repo.old) (D.state repo.new) }
        ensures spool_only { TurnChanges (state self.old) (state self.new) (S.state spool.old) (S.state spool.new) }
        ensures spool_known { IsSome (S.state spool.old).view.now → IsSome (S.state spool.new).view.now }
        ensures repo_frame { CallsProperly (D.state repo.old) (D.state repo.new) }
        ensures spool_frame { CallsProperly (S.state spool.old) (S.state spool.new) }
        ensures started { (state self.new).started ≡ (state self.old).started }

        // The step is counted, and each refusal has its cause.
        ensures counted { OnOk result ((state self.new).turns ≡ min ((state self.old).turns + 1) (2 ^ 64 - 1)) }
        ensures uncounted { OnErr result ((state self.new).turns ≡ (state self.old).turns) }
        ensures repo { IsErrOf result TurnError.Repo → Rises (D.state repo.old).faults (D.state repo.new).faults }
        ensures spool { IsErrOf result TurnError.Spool → Rises (S.state spool.old).faults (S.state spool.new).faults }
        ensures later { (state self.old).faults ≤ (state self.new).faults };

    /// Starts this program with these arguments.
    fn start(&mut self, arguments: &[String]) -> Result<(), DeviceError>
        ensures started { OnOk result
            (IsStarted (map string_bytes arguments.now) (state self.old) (state self.new)) }
        ensures refused { OnErr result ((state self.new).started ≡ (state self.old).started) }
        ensures account { (state self.new).account ≡ (state self.old).account }
        ensures turns { (state self.new).turns ≡ (state self.old).turns }
        ensures cause { HasCause (state self.old).faults (state self.new).faults result };
}

impl<D: Disk, S: Disk> OtherProcesses<D, S> for NotThere {
    ghost state = { λ it. record { account = None; turns = 0; started = None; faults = it.faults } };

    fn turn(&mut self, _repo: &mut D, _spool: &mut S) -> Result<(), TurnError>
        ensures repo { _repo.new ≡ _repo.old }
        ensures spool { _spool.new ≡ _spool.old }
        ensures later { self.old.faults ≤ self.new.faults }
        ensures never { result ≡ Err TurnError.NoMemory }
    {
        let _failed: Result<(), DeviceError> = self.fail();
        Err(TurnError::NoMemory)
    }

    fn start(&mut self, _arguments: &[String]) -> Result<(), DeviceError>
        ensures later { self.old.faults ≤ self.new.faults }
        ensures rises { Rises self.old.faults self.new.faults }
        ensures never { result ≡ Err DeviceError.Failed }
    {
        self.fail()
    }
}
