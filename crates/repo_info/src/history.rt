// The history of clusters that a section states, whichever its clusters are.
ghost use Rattle.std.specs.Prelude.{◌≡◌, ◌≢◌, ◌⊎◌, ◌<◌, ◌≤◌, ◌^◌, ◌↔◌, ℕ, map, length, IfOk, IfErr, IfSome, IfNone, IsTrue, decimal};
ghost use Rattle.serde_json.specs.View.{view};
ghost use Rattle.base_model.specs.Json.{IsValue};
ghost use Rattle.base_model.specs.InfoText.{IsSection};
ghost use Rattle.base_model.specs.Fields.{Field, by_key};
ghost use Rattle.repo_ini.specs.Parts.{keys_of, section_of};
ghost use Rattle.repo_info.specs.History.{AreNumbered, IsHistoryOf, IsHistoryFault, IsFieldFault, IsClusterAt, StatesCluster, StatesNone};

use base_text::{NoMemory, decimal, read_decimal};
use repo_ini::Part;
use repo_keys::{PartsFault, find, form, history_number};
use serde_json::Value;
use std::alloc::Global;

/// A cluster that is in a history under its number.
pub(crate) trait Numbered: Copy {
    /// Its rules.
    ghost IsOne: { Self → Type 0 };

    ghost number_of: { Self → ℕ };

    /// Its key and its value in the history.
    ghost field: { Self → Field };

    fn number(&self) -> u32
        ensures { result ≡ number_of self.now };

    fn is_same(&self, other: &Self) -> bool
        ensures { IsTrue result ↔ (self.now ≡ other.now) };

    /// The cluster of this number whose value this is.
    fn read(alloc: Global, number: u32, value: &Value) -> Result<Option<Self>, NoMemory>
        requires { IsValue (view value.now) }
        ensures some { IfOk result (λ o. IfSome o (StatesCluster IsOne number_of field number (view value.now))) }
        ensures none { IfOk result (λ o. IfNone o (StatesNone IsOne number_of field number (view value.now))) };
}

// The history number whose digits these are: no number is 0.
fn number_in(key: &str) -> Option<u32>
    ensures none { IfNone result ((n : ℕ) → n < 2 ^ 32 → 1 ≤ n → key.now ≢ decimal n) }
    ensures some { IfSome result (λ n. key.now ≡ decimal n) }
{
    match read_decimal(key.as_bytes()) {
        Some(n) => history_number(n),
        None => None,
    }
}

// The key and its value are a cluster's.
fn check_entry<C: Numbered>(alloc: Global, key: &str, value: &Value) -> Result<(), PartsFault>
    requires laws { AreNumbered C.IsOne C.number_of C.field }
    requires value { IsValue (view value.now) }
    ensures { IfErr result (IsFieldFault C.IsOne C.number_of C.field (key.now, view value.now)) }
{
    let Some(id) = number_in(key) else {
        return Err(form(alloc, "db:history", key));
    };
    let Some(_) = C::read(alloc, id, value)? else {
        return Err(form(alloc, "db:history", key));
    };
    Ok(())
}

// Each key and its value are a cluster's.
fn check_entries<C: Numbered>(
    alloc: Global,
    part: &Part,
    current: &C,
    least: u32,
) -> Result<(), PartsFault>
    requires laws { AreNumbered C.IsOne C.number_of C.field }
    requires rules { IsSection (section_of part.now) }
    ensures { IfErr result (IsHistoryFault C.IsOne C.number_of C.field current.now least part.now) }
{
    for k in &part.keys {
        check_entry::<C>(alloc, k.0.as_str(), &k.1)?;
    }
    Ok(())
}

// The cluster of a number, which is the current one at its number.
fn cluster_at<C: Numbered>(
    alloc: Global,
    part: &Part,
    current: &C,
    least: u32,
    number: u64,
) -> Result<C, PartsFault>
    requires laws { AreNumbered C.IsOne C.number_of C.field }
    requires rules { IsSection (section_of part.now) }
    requires low { 1 ≤ number }
    requires high { (number ≤ length part.now.keys.items) ⊎ (number ≤ least) }
    ensures cluster { IfOk result (IsClusterAt C.IsOne C.number_of C.field current.now part.now number) }
    ensures fault { IfErr result (IsHistoryFault C.IsOne C.number_of C.field current.now least part.now) }
{
    let key = decimal(alloc, number)?;
    let Some(id) = history_number(number) else {
        return Err(form(alloc, "db:history", key.as_str()));
    };
    let Some(value) = find(&part.keys, key.as_str()) else {
        return Err(form(alloc, "db:history", key.as_str()));
    };
    let Some(cluster) = C::read(alloc, id, value)? else {
        return Err(form(alloc, "db:history", key.as_str()));
    };
    if id == current.number() && !cluster.is_same(current) {
        return Err(form(alloc, "db:history", key.as_str()));
    }
    Ok(cluster)
}

/// The history that the section states, with this many clusters at least.
pub(crate) fn history_of<C: Numbered>(
    alloc: Global,
    part: &Part,
    current: &C,
    least: u32,
) -> Result<Vec<C>, PartsFault>
    requires laws { AreNumbered C.IsOne C.number_of C.field }
    requires rules { IsSection (section_of part.now) }
    requires low { 1 ≤ C.number_of current.now }
    requires under { C.number_of current.now ≤ least }
    ensures history { IfOk result (λ h. IsHistoryOf C.IsOne C.number_of C.field current.now least part.now h.items) }
    ensures keys { IfOk result (λ h. keys_of part.now ≡ by_key (map C.field h.items)) }
    ensures fault { IfErr result (IsHistoryFault C.IsOne C.number_of C.field current.now least part.now) }
{
    check_entries(alloc, part, current, least)?;
    clusters_of(alloc, part, current, least)
}

// The clusters of the numbers from 1 on.
fn clusters_of<C: Numbered>(
    alloc: Global,
    part: &Part,
    current: &C,
    least: u32,
) -> Result<Vec<C>, PartsFault>
    requires laws { AreNumbered C.IsOne C.number_of C.field }
    requires rules { IsSection (section_of part.now) }
    requires low { 1 ≤ C.number_of current.now }
    requires under { C.number_of current.now ≤ least }
    ensures history { IfOk result (λ h. IsHistoryOf C.IsOne C.number_of C.field current.now least part.now h.items) }
    ensures keys { IfOk result (λ h. keys_of part.now ≡ by_key (map C.field h.items)) }
    ensures fault { IfErr result (IsHistoryFault C.IsOne C.number_of C.field current.now least part.now) }
{
    let mut history = Vec::new(alloc);
    while history.len() < part.keys.len() || history.len() < least as usize {
        let cluster = cluster_at(alloc, part, current, least, history.len() as u64 + 1)?;
        history.push(cluster)?;
    }
    Ok(history)
}
