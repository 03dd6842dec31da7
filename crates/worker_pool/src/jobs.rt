//! Which worker has which job, which jobs wait, and which have ended.
//!
//! What is proved, by the contract of the function that is named:
//!
//! - `JobTable::new`, `give`, `note_frame`, `drop_worker`: the four events, each by the definition. The lowest waiting
//!   job is given first, and the job of a lost worker waits again.
//! - `busy`, `job`, `is_idle`, `finished`: what is there.

ghost use Rattle.std.specs.Prelude.{false, ◌≡◌, ℕ, ◌^◌, ◌<◌, ◌≤◌, [], length, IfOk, IfSome, IfNone, IsTrue, ◌↔◌, slice_get, Some};
ghost use Rattle.worker_pool.specs.Dispatch.{start, Waits, IsIdle, Has, IsLowest, after_give, after_frame, after_drop, after_drop_idle, IsBusy, IsLive, Step, NoneWaits, NoneIsWith, IsFirst, HasJob, IsAmong, AllEnded};
ghost use Rattle.worker_pool.specs.Dispatch.Event.{Give, Receive, DropWorker};

use std::alloc::{AllocError, Global};
use std::marker::Model;

/// Where a job is.
#[derive(Clone, Copy, Debug, PartialEq, Eq)]
pub enum JobPlace {
    Waiting,
    /// With the link of this number.
    With(u32),
    Ended,
}

/// What a link does.
#[derive(Clone, Copy, Debug, PartialEq, Eq)]
pub enum LinkPlace {
    Idle,
    /// It has the job of this number.
    Busy(u32),
    Lost,
}

/// Which link has which job. No job below `low` waits.
#[derive(Drop)]
pub struct JobTable {
    places: Vec<JobPlace>,
    holders: Vec<LinkPlace>,
    low: u32,
}

impl Model for JobTable {
    ghost use Rattle.worker_pool.specs.Dispatch.{Dispatch, IsJobTable};

    ghost Value = { Dispatch };

    ghost view = { λ c. record { jobs = c.places.items; links = c.holders.items } };

    ghost invariant = { λ c. IsJobTable c.places.items c.holders.items c.low };
}

impl JobTable {
    /// All jobs wait, and all links are idle.
    pub fn new(alloc: Global, jobs: u32, links: u32) -> Result<JobTable, AllocError>
        ensures { IfOk result (λ job_table. job_table ≡ start jobs links) }
    {
        let places = vec![in alloc; JobPlace::Waiting; jobs as usize]?;
        let holders = vec![in alloc; LinkPlace::Idle; links as usize]?;
        Ok(JobTable {
            places,
            holders,
            low: 0,
        })
    }

    /// Gives an idle link the lowest job that waits.
    pub fn give(&mut self, link: u32) -> Option<u32>
        requires { IsIdle self.old link }
        ensures given { IfSome result (λ job. IsLowest self.old job × (self.new ≡ after_give self.old link job)) }
        ensures none { IfNone result ((self.new ≡ self.old) × NoneWaits self.old) }
        ensures step { IfSome result (λ _. Step self.old (Give link) self.new) }
    {
        let job = lowest(&self.places, self.low)?;
        self.places[job as usize] = JobPlace::With(link);
        self.holders[link as usize] = LinkPlace::Busy(job);
        self.low = job;
        Some(job)
    }

    /// Notes that a frame came from a busy link. The one that ends the reply ends the job.
    pub fn note_frame(&mut self, link: u32, ended: bool)
        requires { IsBusy self.old link }
        ensures ends { (job : ℕ) → Has self.old link job → self.new ≡ after_frame ended self.old link job }
        ensures step { Step self.old (Receive link ended) self.new }
    {
        if !ended {
            return;
        }
        let Some(job) = job_of(&self.holders, link) else {
            return;
        };
        self.places[job as usize] = JobPlace::Ended;
        self.holders[link as usize] = LinkPlace::Idle;
    }

    /// The job of a busy link.
    pub fn job(&self, link: u32) -> Option<u32>
        requires { IsLive self.now link }
        ensures some { IfSome result (λ job. Has self.now link job) }
        ensures with { IfSome result (λ job. slice_get self.now.jobs job ≡ Some (JobPlace.With link)) }
        ensures none { IfNone result (IsIdle self.now link) }
    {
        job_of(&self.holders, link)
    }

    /// Whether a link is idle.
    pub fn is_idle(&self, link: u32) -> bool
        requires { link < length self.now.links }
        ensures yes { IsTrue result → IsIdle self.now link }
        ensures no { result ≡ false → IsIdle self.now link → ⊥ }
    {
        idle(&self.holders, link)
    }

    /// The busy links. Where there are none, no job is with a link.
    pub fn busy(&self, alloc: Global) -> Result<Vec<u32>, AllocError>
        ensures all { IfOk result (λ v. (k l : ℕ) → slice_get v.items k ≡ Some l → IsBusy self.now l) }
        ensures each { IfOk result
            (λ v. (l : ℕ) → IsBusy self.now l → (k : ℕ) × (slice_get v.items k ≡ Some l)) }
        ensures with { IfOk result (λ v. v.items ≡ [] → NoneIsWith self.now) }
    {
        busy_links(alloc, &self.holders)
    }

    /// Loses a live link. Its job waits again.
    pub fn drop_worker(&mut self, link: u32)
        requires { IsLive self.old link }
        ensures busy { (job : ℕ) → Has self.old link job → self.new ≡ after_drop self.old link job }
        ensures idle { IsIdle self.old link → self.new ≡ after_drop_idle self.old link }
        ensures step { Step self.old (DropWorker link) self.new }
    {
        let Some(job) = job_of(&self.holders, link) else {
            self.holders[link as usize] = LinkPlace::Lost;
            return;
        };
        self.places[job as usize] = JobPlace::Waiting;
        self.holders[link as usize] = LinkPlace::Lost;
        self.low = lower(self.low, job);
    }

    /// Whether each job has ended.
    pub fn finished(&self) -> bool
        ensures { IsTrue result ↔ AllEnded self.now.jobs }
    {
        all_ended(&self.places)
    }
}

/// The lower of two numbers.
fn lower(a: u32, b: u32) -> u32
    ensures first { result ≤ a }
    ensures second { result ≤ b }
{
    if a < b { a } else { b }
}

/// Whether a link is idle.
fn idle(holders: &Vec<LinkPlace>, link: u32) -> bool
    requires { link < length holders.now.items }
    ensures yes { IsTrue result → slice_get holders.now.items link ≡ Some LinkPlace.Idle }
    ensures no { result ≡ false → slice_get holders.now.items link ≡ Some LinkPlace.Idle → ⊥ }
{
    matches!(holders[link as usize], LinkPlace::Idle)
}

/// The job of a link, if it has one.
fn job_of(holders: &Vec<LinkPlace>, link: u32) -> Option<u32>
    requires { link < length holders.now.items }
    ensures some { IfSome result (λ job. slice_get holders.now.items link ≡ Some (LinkPlace.Busy job)) }
    ensures none { IfNone result
        ((job : ℕ) → slice_get holders.now.items link ≡ Some (LinkPlace.Busy job) → ⊥) }
{
    match holders[link as usize] {
        LinkPlace::Busy(job) => Some(job),
        _ => None,
    }
}

/// Whether each job has ended.
fn all_ended(places: &Vec<JobPlace>) -> bool
    ensures { IsTrue result ↔ AllEnded places.now.items }
{
    for i in 0..places.len() {
        if places[i] != JobPlace::Ended {
            return false;
        }
    }
    true
}

/// The lowest job from `low` on that waits.
fn lowest(places: &Vec<JobPlace>, low: u32) -> Option<u32>
    requires few { length places.now.items < 2 ^ 32 }
    requires low { (k : ℕ) → k < low → slice_get places.now.items k ≡ Some JobPlace.Waiting → ⊥ }
    ensures found { IfSome result (IsFirst places.now.items) }
    ensures none { IfNone result ((k : ℕ) → slice_get places.now.items k ≡ Some JobPlace.Waiting → ⊥) }
{
    for i in low as usize..places.len() {
        if let JobPlace::Waiting = places[i] {
            return Some(i as u32);
        }
    }
    None
}

/// The busy links.
fn busy_links(alloc: Global, holders: &Vec<LinkPlace>) -> Result<Vec<u32>, AllocError>
    requires { length holders.now.items < 2 ^ 32 }
    ensures all { IfOk result
        (λ v. (k l : ℕ) → slice_get v.items k ≡ Some l → (j : ℕ) × HasJob holders.now.items l j) }
    ensures each { IfOk result (λ v. (l j : ℕ) → HasJob holders.now.items l j → IsAmong v.items l) }
{
    let mut busy = Vec::new(alloc);
    for i in 0..holders.len() {
        if let Some(_job) = job_of(holders, i as u32) {
            busy.push(i as u32)?;
        }
    }
    Ok(busy)
}
