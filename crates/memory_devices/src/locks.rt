// Locks in memory.
ghost use Rattle.std.specs.Prelude.{◌≡◌, ◌≤◌, ◌↔◌, ◌∷◌, [], IsTrue, Some, Contains, IfOk, OnOk, OnErr, bytes_eq, string_bytes};
ghost use Rattle.std.specs.List.{list_any};
ghost use Rattle.base_devices.specs.Cause.{HasCause, Rises};
ghost use Rattle.base_devices.specs.Locking.{with_lock, without};
ghost use Rattle.base_devices.specs.declared.locks.LockAnswer.TheVariants.{Busy};
ghost use Rattle.memory_devices.specs.Counts.{is_to_fail, counted, FailsWhere};
ghost use Rattle.memory_devices.specs.Locks.{names_in, locks_in, refused, taken_names, all_taken, AddsLock, KeepsLocks};

use crate::failing::Failing;
use base_devices::{DeviceError, LockAnswer, Locks};
use std::alloc::{AllocError, Global};

/// Locks that others hold or that were taken here, by their names.
#[derive(Drop)]
pub struct MemLocks {
    alloc: Global,
    others: Vec<String>,
    // the last one first
    taken: Vec<String>,
    // folder and name of each lock, the last one first
    ever_taken: Vec<(String, String)>,
    refusals: u64,
    failing: Failing,
}

impl MemLocks {
    /// Locks of which others hold those of the names in `held`. `fail` has the numbers of the takes that are to fail,
    /// the first being 0.
    pub fn new(alloc: Global, held: Vec<String>, fail: Vec<u64>) -> Self
        ensures taken { (⟦<MemLocks as Locks>⟧.state result).taken ≡ [] }
        ensures ever_taken { (⟦<MemLocks as Locks>⟧.state result).ever_taken ≡ Some [] }
        ensures others { (⟦<MemLocks as Locks>⟧.state result).others ≡ Some (names_in held.items) }
        ensures refusals { (⟦<MemLocks as Locks>⟧.state result).refusals ≡ 0 }
        ensures counts { result.failing ≡ record { fail = fail; calls = 0; faults = 0; faulty_calls = 0 } }
    {
        MemLocks {
            alloc,
            others: held,
            taken: Vec::new(alloc),
            ever_taken: Vec::new(alloc),
            refusals: 0,
            failing: Failing::new(fail),
        }
    }

    /// Whether the lock was taken and not released.
    pub fn has(&self, name: &str) -> bool
        ensures { IsTrue result ↔ Contains (⟦<MemLocks as Locks>⟧.state self.now).taken name.now }
    {
        has_name(&self.taken, name)
    }

    /// Folder and name of each lock that was ever taken, the last one first.
    pub fn ever_taken(&self) -> &[(String, String)]
        ensures { (⟦<MemLocks as Locks>⟧.state self.now).ever_taken ≡ Some (locks_in result.now) }
    {
        &self.ever_taken
    }

    /// The names that were taken and not released, the last one first.
    pub fn taken(&self) -> &[String]
        ensures { (⟦<MemLocks as Locks>⟧.state self.now).taken ≡ names_in result.now }
    {
        &self.taken
    }

    /// How often a lock was held by others.
    pub fn refusals(&self) -> u64
        ensures { result ≡ (⟦<MemLocks as Locks>⟧.state self.now).refusals }
    {
        self.refusals
    }

    /// How often a take failed.
    pub fn faults(&self) -> u64
        ensures { result ≡ (⟦<MemLocks as Locks>⟧.state self.now).faults }
    {
        self.failing.faults()
    }

    // Notes a lock that was taken.
    fn note(&mut self, folder: &str, name: &str) -> Result<(), AllocError>
        ensures taken { OnOk result (names_in self.new.taken.items ≡ name.now ∷ names_in self.old.taken.items) }
        ensures ever_taken { OnOk result (all_taken self.new ≡ (folder.now, name.now) ∷ all_taken self.old) }
        ensures err { OnErr result (KeepsLocks self.old self.new) }
        ensures others { self.new.others ≡ self.old.others }
        ensures refusals { self.new.refusals ≡ self.old.refusals }
        ensures counts { self.new.failing ≡ self.old.failing }
    {
        let of_taken = String::from_str(self.alloc, name)?;
        let of_folder = String::from_str(self.alloc, folder)?;
        let of_took = String::from_str(self.alloc, name)?;
        self.taken.insert(0, of_taken)?;
        if self.ever_taken.insert(0, (of_folder, of_took)).is_err() {
            let _ = self.taken.remove(0);
            return Err(AllocError);
        }
        Ok(())
    }
}

impl Locks for MemLocks {
    ghost state = { λ l. record {
      taken = names_in l.taken.items;
      ever_taken = Some (locks_in l.ever_taken.items);
      others = Some (names_in l.others.items);
      refusals = l.refusals;
      faults = l.failing.faults;
    } };

    fn take(&mut self, folder: &str, name: &str) -> Result<LockAnswer, DeviceError>
        requires { ¬ Contains (names_in self.old.taken.items) name.now }
        ensures taken { IfOk result (λ t. taken_names self.new ≡ with_lock t name.now (taken_names self.old)) }
        ensures ever_taken { IfOk result (λ t. AddsLock t (folder.now, name.now) self.old self.new) }
        ensures known { IfOk result (λ t. (t ≡ Busy) ↔ Contains (names_in self.old.others.items) name.now) }
        ensures held { IfOk result (λ t. t ≡ Busy → Rises self.old.refusals self.new.refusals) }
        ensures later { self.old.refusals ≤ self.new.refusals }
        ensures refusals { IfOk result (λ t. self.new.refusals ≡ refused t self.old.refusals) }
        ensures err { OnErr result (KeepsLocks self.old self.new) }
        ensures err_refusals { OnErr result (self.new.refusals ≡ self.old.refusals) }
        ensures others { self.new.others ≡ self.old.others }
        ensures fails { FailsWhere (is_to_fail self.old.failing) result }
        ensures counts { self.new.failing ≡ counted self.old.failing }
        ensures cause { HasCause self.old.failing.faults self.new.failing.faults result }
    {
        if self.failing.fails() {
            return Err(DeviceError::Failed);
        }
        if has_name(&self.others, name) {
            let refusals = self.refusals;
            self.refusals = refusals.saturating_add(1);
            return Ok(LockAnswer::Busy);
        }
        self.note(folder, name)?;
        Ok(LockAnswer::Acquired)
    }

    fn release(&mut self, name: &str)
        ensures taken { names_in self.new.taken.items ≡ without name.now (names_in self.old.taken.items) }
        ensures ever_taken { self.new.ever_taken ≡ self.old.ever_taken }
        ensures others { self.new.others ≡ self.old.others }
        ensures refusals { self.new.refusals ≡ self.old.refusals }
        ensures failing { self.new.failing ≡ self.old.failing }
    {
        drop_name(&mut self.taken, name);
    }
}

fn has_name(names: &[String], name: &str) -> bool
    ensures { result ≡ list_any (λ x. bytes_eq (string_bytes x) name.now) names.now }
{
    names.iter().any(|other| other.as_str() == name)
}

fn drop_name(names: &mut Vec<String>, name: &str)
    ensures { names_in names.new.items ≡ without name.now (names_in names.old.items) }
{
    names.retain(|other| other.as_str() != name);
}
