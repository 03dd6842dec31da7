// Where the items of the jobs lie.
ghost use Rattle.std.specs.Prelude.{◌≡◌, ◌<◌, ◌^◌, map, slice_get, option_map, option_and_then, IfOk};
ghost use Rattle.std.specs.List.{AllByRecursion};
ghost use Rattle.backup_sink.specs.Keeping.{total};
ghost use Rattle.backup_record.specs.Sums.{sums};
ghost use Rattle.backup_record.specs.Ends.{end_at};

use backup_sink::EndedItem;
use std::alloc::{AllocError, Global};

// How many bytes lie before each item of a job.
fn sums_of(alloc: Global, ended: &[EndedItem]) -> Result<Vec<u64>, AllocError>
    requires { total ended.now < 2 ^ 64 }
    ensures { IfOk result (λ v. v.items ≡ sums 0 ended.now) }
{
    let mut places = Vec::new(alloc);
    let mut at: u64 = 0;
    for e in ended {
        places.push(at)?;
        at += e.count;
    }
    Ok(places)
}

/// How many bytes lie before each item of each job.
pub fn places_of(alloc: Global, ends: &[Vec<EndedItem>]) -> Result<Vec<Vec<u64>>, AllocError>
    requires { AllByRecursion (λ es. total es < 2 ^ 64) (map (λ v. v.items) ends.now) }
    ensures { IfOk result (λ v. map (λ v. v.items) v.items ≡ map (sums 0) (map (λ v. v.items) ends.now)) }
{
    let mut places = Vec::new(alloc);
    for ended in ends {
        places.push(sums_of(alloc, ended)?)?;
    }
    Ok(places)
}

/// How an item of a job ended.
pub(crate) fn end_of(ends: &[Vec<EndedItem>], job: usize, item: usize) -> Option<EndedItem>
    ensures { result ≡ end_at (map (λ v. v.items) ends.now) job item }
{
    if job >= ends.len() {
        return None;
    }
    let ended = &ends[job];
    if item >= ended.len() {
        return None;
    }
    Some(ended[item])
}

/// How many bytes lie before it.
pub(crate) fn sum_at(places: &[Vec<u64>], job: usize, item: usize) -> Option<u64>
    ensures { result ≡ option_and_then (λ s. slice_get s item) (slice_get (map (λ v. v.items) places.now) job) }
{
    if job >= places.len() {
        return None;
    }
    let sums = &places[job];
    if item >= sums.len() {
        return None;
    }
    Some(sums[item])
}
