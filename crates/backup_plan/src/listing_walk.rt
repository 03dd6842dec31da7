// A walk over the files of a listing.
ghost use Rattle.std.specs.Prelude.{◌≡◌, ◌<◌, ◌^◌, ◌-◌, ◌++◌, ◌∷◌, [], length, map, OnOk, IfOk};
ghost use Rattle.worker_protocol.specs.Views.{job_of, item_of, items_of};
ghost use Rattle.backup_plan.specs.Layout.{item_for, read_job, takes, bundled, laid, bundles, bundle_job, begin, IsWithin, with_choice};
ghost use Rattle.backup_plan.specs.Views.{taken_of, layout_of};

use crate::values::{Choice, PlanSettings, Taken, What};
use std::alloc::{AllocError, Global};
use worker_protocol::{Item, Job, JobKind, Root};

// A bundle has at most this many files.
const BUNDLE_FILES: usize = 50_000;

/// How far a walk has come.
#[derive(Drop)]
pub(crate) struct Walk {
    pub(crate) choices: Vec<Choice>,
    pub(crate) singles: Vec<Job>,
    pub(crate) full: Vec<Job>,
    pub(crate) current: Vec<Item>,
    pub(crate) bytes: u64,
    pub(crate) last: Vec<Job>,
}

/// The whole file.
pub(crate) fn item_of_file(file: &Taken) -> Result<Item, AllocError>
    ensures { IfOk result (λ i. item_of i ≡ item_for (taken_of file.now)) }
{
    Ok(Item {
        root: Root::DataFolder,
        path: file.path.clone()?,
        at: 0,
        size: file.size,
    })
}

// A job for the whole file.
fn job_of_file(alloc: Global, file: &Taken) -> Result<Job, AllocError>
    ensures { IfOk result (λ j. job_of j ≡ read_job (item_for (taken_of file.now) ∷ [])) }
{
    let mut items = Vec::new(alloc);
    items.push(item_of_file(file)?)?;
    Ok(Job {
        kind: JobKind::Read,
        items,
    })
}

/// Adds the job of a bundle with these files, where it has any.
pub(crate) fn close(alloc: Global, full: &mut Vec<Job>, items: Vec<Item>) -> Result<(), AllocError>
    ensures { OnOk result (map job_of full.new.items ≡ map job_of full.old.items
        ++ bundle_job (items_of items.items)) }
{
    let _ = alloc;
    if items.is_empty() {
        return Ok(());
    }
    full.push(Job {
        kind: JobKind::Read,
        items,
    })?;
    Ok(())
}

impl Walk {
    /// A walk that begins.
    pub(crate) fn begin(alloc: Global) -> Self
        ensures { layout_of result ≡ begin }
    {
        Walk {
            choices: Vec::new(alloc),
            singles: Vec::new(alloc),
            full: Vec::new(alloc),
            current: Vec::new(alloc),
            bytes: 0,
            last: Vec::new(alloc),
        }
    }

    // The bundle that is filled takes a file of this many bytes.
    fn takes(&self, settings: &PlanSettings, size: u64) -> bool
        ensures { result ≡ takes settings.now (layout_of self.now) size }
    {
        !self.current.is_empty()
            && self.current.len() < BUNDLE_FILES
            && size <= settings.bundle_size
            && self.bytes <= settings.bundle_size - size
    }

    // Puts the file in a bundle.
    fn bundle(
        &mut self,
        alloc: Global,
        settings: &PlanSettings,
        file: &Taken,
    ) -> Result<(), AllocError>
        ensures { OnOk result (layout_of self.new ≡ bundled settings.now (layout_of self.old) (taken_of file.now)) }
    {
        let item = item_of_file(file)?;
        if self.takes(settings, file.size) {
            self.current.push(item)?;
            self.bytes += file.size;
        } else {
            let items = std::mem::replace(&mut self.current, Vec::new(alloc));
            close(alloc, &mut self.full, items)?;
            self.current.push(item)?;
            self.bytes = file.size;
        }
        Ok(())
    }

    // Chooses for the file.
    fn choose(&mut self, choice: Choice) -> Result<(), AllocError>
        ensures { OnOk result (layout_of self.new ≡ with_choice choice (layout_of self.old)) }
    {
        self.choices.push(choice)?;
        Ok(())
    }

    /// Continues by one file.
    pub(crate) fn add(
        &mut self,
        alloc: Global,
        settings: &PlanSettings,
        file: &Taken,
        what: What,
    ) -> Result<(), AllocError>
        requires within { IsWithin (layout_of self.old) }
        requires few { length self.old.choices.items < 2 ^ 32 - 1 }
        ensures { OnOk result (layout_of self.new ≡ laid settings.now (layout_of self.old) (taken_of file.now) what) }
    {
        match what {
            What::Leave => self.choose(Choice::Skip),
            What::Nothing => self.choose(Choice::Empty),
            What::Single => {
                let job = self.singles.len() as u32;
                self.singles.push(job_of_file(alloc, file)?)?;
                self.choose(Choice::Alone { job })
            }
            What::Small => {
                self.bundle(alloc, settings, file)?;
                let number = (self.full.len() + 1) as u32;
                let item = (self.current.len() - 1) as u32;
                self.choose(Choice::Bundle { number, item })
            }
            What::Control => {
                self.last.push(job_of_file(alloc, file)?)?;
                self.choose(Choice::Last)
            }
        }
    }
}
