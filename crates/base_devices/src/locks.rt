// The trait of locks against other programs.
ghost use Rattle.std.specs.Prelude.{◌≡◌, ◌≤◌, Contains, IfOk, OnErr};
ghost use Rattle.base_devices.specs.declared.locks.LockAnswer.TheVariants.{Busy};
ghost use Rattle.base_devices.specs.Cause.{HasCause, Rises};
ghost use Rattle.base_devices.specs.Locking.{with_lock, without};
ghost use Rattle.base_devices.specs.States.{LocksState, RecordsTake, TakesNone, TellsHeld};

use crate::DeviceError;

/// The result of taking a lock.
#[derive(Clone, Copy, Debug, PartialEq, Eq)]
pub enum LockAnswer {
    Acquired,
    /// Another program has it.
    Busy,
}

/// Locks by name, each in a folder. One that was taken is held until its release, or until the program ends.
pub trait Locks {
    /// Which locks were taken and which others hold, and its counts.
    ghost state: { Self → LocksState };

    /// Takes a lock, unless another program holds it. The folder is made where it is absent.
    fn take(&mut self, folder: &str, name: &str) -> Result<LockAnswer, DeviceError>
        requires { ¬ Contains (state self.old).taken name.now }
        ensures taken { IfOk result (λ t. (state self.new).taken ≡ with_lock t name.now (state self.old).taken) }
        ensures ever_taken { IfOk result (λ t. RecordsTake t (folder.now, name.now) (state self.old) (state self.new)) }
        ensures held { IfOk result (λ t. t ≡ Busy → Rises (state self.old).refusals (state self.new).refusals) }
        ensures known { IfOk result (λ t. TellsHeld t name.now (state self.old)) }
        ensures err { OnErr result (TakesNone (state self.old) (state self.new)) }
        ensures others { (state self.new).others ≡ (state self.old).others }
        ensures later { (state self.old).refusals ≤ (state self.new).refusals }
        ensures cause { HasCause (state self.old).faults (state self.new).faults result };

    fn release(&mut self, name: &str)
        ensures taken { (state self.new).taken ≡ without name.now (state self.old).taken }
        ensures ever_taken { (state self.new).ever_taken ≡ (state self.old).ever_taken }
        ensures others { (state self.new).others ≡ (state self.old).others }
        ensures refusals { (state self.new).refusals ≡ (state self.old).refusals }
        ensures faults { (state self.new).faults ≡ (state self.old).faults };
}
