// Takes and releases the locks of a command.
ghost use Rattle.std.specs.Prelude.{◌≡◌, ◌≤◌, false, None, ◌++◌, [], OnOk, OnErr, IfOk, IfErr, IfSome, Contains};
ghost use Rattle.cmd_types.specs.Plans.{when, with_held, AreHeld};
ghost use Rattle.cmd_setup.specs.Taking.{name_of, AreNames, MayHold, released, HoldsAtMost, TakesOne, TakesPlanned, MayTakeFirst};
ghost use Rattle.cmd_setup.specs.Taking.{IsHeldName, HeldCause, LocksCause};

use base_devices::{LockAnswer, Locks};
use cmd_types::{Halt, Object, Plan, StageFault, halted};
use std::alloc::{AllocError, Global};

/// The names of a command's locks.
#[derive(Debug, Drop)]
pub struct LockNames {
    first: Option<String>,
    second: Option<String>,
}

fn named(alloc: Global, needed: bool, stanza: &str, end: &str) -> Result<Option<String>, AllocError>
    ensures { IfOk result (λ name. name_of name ≡ when needed (stanza.now ++ end.now)) }
{
    if needed {
        Ok(Some(format!(in alloc; "{stanza}{end}")?))
    } else {
        Ok(None)
    }
}

/// The names of the plan's locks.
pub fn lock_names(alloc: Global, plan: &Plan, stanza: &str) -> Result<LockNames, AllocError>
    ensures { IfOk result (λ names. AreNames names plan.now stanza.now) }
{
    let first = named(alloc, plan.backup_lock, stanza, "-backup.lock")?;
    let second = named(alloc, plan.archive_lock, stanza, "-archive.lock")?;
    Ok(LockNames { first, second })
}

fn take_one<K: Locks>(
    alloc: Global,
    locks: &mut K,
    folder: &str,
    name: &Option<String>,
) -> Result<(), Halt<StageFault>>
    requires { IfSome (name_of name.now) (λ n. ¬ Contains (K.state locks.old).taken n) }
    ensures held { OnOk result ((K.state locks.new).taken ≡ with_held (name_of name.now) (K.state locks.old).taken) }
    ensures may { MayHold (name_of name.now) (K.state locks.old).taken (K.state locks.new).taken }
    ensures ever_taken { OnOk result (TakesOne folder.now (name_of name.now) (K.state locks.old) (K.state locks.new)) }
    ensures free { OnErr result ((K.state locks.new).ever_taken ≡ (K.state locks.old).ever_taken) }
    ensures none { name_of name.now ≡ None → locks.new ≡ locks.old }
    ensures later { (K.state locks.old).faults ≤ (K.state locks.new).faults }
    ensures refusals { (K.state locks.old).refusals ≤ (K.state locks.new).refusals }
    ensures cause { IfErr result (LocksCause (IsHeldName (name_of name.now)) (K.state locks.old) (K.state locks.new)) }
{
    let Some(name) = name else {
        return Ok(());
    };
    match locks.take(folder, name) {
        Ok(LockAnswer::Acquired) => Ok(()),
        Ok(LockAnswer::Busy) => Err(Halt::Refused(StageFault::Held {
            name: String::from_str(alloc, name)?,
        })),
        Err(error) => Err(halted(Object::Locks, error)),
    }
}

/// Takes the locks of these names. Some may be held after an `Err` too.
pub fn take_locks<K: Locks>(
    alloc: Global,
    locks: &mut K,
    folder: &str,
    names: &LockNames,
    plan: &Plan,
    stanza: &str,
) -> Result<(), Halt<StageFault>>
    requires free { (K.state locks.old).taken ≡ [] }
    requires names { AreNames names.now plan.now stanza.now }
    ensures held { OnOk result (AreHeld plan.now stanza.now (K.state locks.new).taken) }
    ensures only { HoldsAtMost plan.now stanza.now (K.state locks.new).taken }
    ensures ever_taken { OnOk result (TakesPlanned plan.now folder.now stanza.now (K.state locks.old) (K.state locks.new)) }
    ensures may { OnErr result (MayTakeFirst plan.now folder.now stanza.now (K.state locks.old) (K.state locks.new)) }
    ensures idle { plan.now.backup_lock ≡ false → plan.now.archive_lock ≡ false → locks.new ≡ locks.old }
    ensures later { (K.state locks.old).faults ≤ (K.state locks.new).faults }
    ensures refusals { (K.state locks.old).refusals ≤ (K.state locks.new).refusals }
    ensures cause { IfErr result (LocksCause (HeldCause plan.now stanza.now) (K.state locks.old) (K.state locks.new)) }
{
    take_one(alloc, locks, folder, &names.first)?;
    take_one(alloc, locks, folder, &names.second)?;
    Ok(())
}

fn release_one<K: Locks>(locks: &mut K, name: &Option<String>)
    ensures taken { (K.state locks.new).taken ≡ released (name_of name.now) (K.state locks.old).taken }
    ensures none { name_of name.now ≡ None → locks.new ≡ locks.old }
    ensures ever_taken { (K.state locks.new).ever_taken ≡ (K.state locks.old).ever_taken }
    ensures refusals { (K.state locks.new).refusals ≡ (K.state locks.old).refusals }
    ensures faults { (K.state locks.new).faults ≡ (K.state locks.old).faults }
{
    if let Some(name) = name {
        locks.release(name);
    }
}

/// Releases the locks of these names, the last one first.
pub fn release_locks<K: Locks>(locks: &mut K, names: &LockNames, plan: &Plan, stanza: &str)
    requires names { AreNames names.now plan.now stanza.now }
    requires only { HoldsAtMost plan.now stanza.now (K.state locks.old).taken }
    ensures released { (K.state locks.new).taken ≡ [] }
    ensures idle { plan.now.backup_lock ≡ false → plan.now.archive_lock ≡ false → locks.new ≡ locks.old }
    ensures ever_taken { (K.state locks.new).ever_taken ≡ (K.state locks.old).ever_taken }
    ensures refusals { (K.state locks.new).refusals ≡ (K.state locks.old).refusals }
    ensures faults { (K.state locks.new).faults ≡ (K.state locks.old).faults }
{
    release_one(locks, &names.second);
    release_one(locks, &names.first);
}
