// Whether a manifest states the backup that its entry in `backup.info` does.
ghost use Rattle.std.specs.Prelude.{◌≡◌, ◌≢◌, false, IfOk, IsTrue, OnOk, option_map};
ghost use Rattle.base_model.specs.declared.clusters.Cluster.{Cluster as ClusterOf};
ghost use Rattle.base_model.specs.declared.labels.Label.{Label as LabelOf};
ghost use Rattle.base_model.specs.declared.wal.WalPart.{WalPart as WalOf};
ghost use Rattle.base_model.specs.Text.{In};
ghost use Rattle.base_model.specs.Values.{entry_of, manifest_of};
ghost use Rattle.cmd_verify.specs.Entries.{ShowsSame, StatesEntry};
ghost use Rattle.cmd_verify.specs.Looking.{AddsUnlike};
ghost use Rattle.cmd_verify.specs.References.{RefersAlike};
ghost use Rattle.cmd_verify.specs.What.{Shows, Unlike};

use crate::findings::finding::{Finding, FindingKind};
use crate::findings::references::{is_among, is_same, labels_of};
use base_model::{Cluster, Entry, Label, Manifest, Span, WalPart};
use base_text::NoMemory;
use std::alloc::Global;

pub(crate) fn is_same_prior(a: &Option<Label>, b: &Option<Label>) -> bool
    ensures yes { IsTrue result → a.now ≡ b.now }
    ensures no { result ≡ false → a.now ≢ b.now }
{
    a == b
}

fn is_same_cluster(a: &Cluster, b: &Cluster) -> bool
    ensures yes { IsTrue result → a.now ≡ b.now }
    ensures no { result ≡ false → a.now ≢ b.now }
{
    a == b
}

fn is_same_span(a: &Option<Span>, b: &Option<Span>) -> bool
    ensures yes { IsTrue result → a.now ≡ b.now }
    ensures no { result ≡ false → a.now ≢ b.now }
{
    a == b
}

fn span_of(wal: &Option<WalPart>) -> Option<Span>
    ensures { result ≡ option_map (λ (w : WalOf). w.span) wal.now }
{
    match *wal {
        Some(wal) => Some(wal.span),
        None => None,
    }
}

// Whether the cluster is among these.
fn has_cluster(history: &[Cluster], cluster: &Cluster) -> bool
    ensures yes { IsTrue result → In cluster.now history.now }
    ensures no { result ≡ false → ¬ In cluster.now history.now }
{
    for other in history {
        if is_same_cluster(cluster, other) {
            return true;
        }
    }
    false
}

// Whether each of the other labels is among the labels.
fn has_all(labels: &[Label], others: &[Label]) -> bool
    ensures yes { IsTrue result → (l : LabelOf) → In l others.now → In l labels.now }
    ensures no { result ≡ false → ¬ ((l : LabelOf) → In l others.now → In l labels.now) }
{
    for label in others {
        if !is_among(labels, label) {
            return false;
        }
    }
    true
}

// Whether the manifest states what is in the entry itself.
fn shows_same(entry: &Entry, manifest: &Manifest) -> bool
    ensures yes { IsTrue result → ShowsSame (entry_of entry.now) (manifest_of manifest.now) }
    ensures no { result ≡ false → ¬ ShowsSame (entry_of entry.now) (manifest_of manifest.now) }
{
    let span = span_of(&manifest.wal);
    is_same(&manifest.label, &entry.label)
        && manifest.kind == entry.kind
        && is_same_prior(&manifest.prior, &entry.prior)
        && manifest.start == entry.start
        && manifest.stop == entry.stop
        && manifest.cluster.id == entry.db
        && is_same_span(&span, &entry.span)
}

// Whether the labels that the manifest's files refer to are those of the entry.
fn has_same_references(alloc: Global, entry: &Entry, manifest: &Manifest) -> Result<bool, NoMemory>
    ensures yes { IfOk result (λ r. IsTrue r → RefersAlike entry.now manifest.now) }
    ensures no { IfOk result (λ r. r ≡ false → ¬ RefersAlike entry.now manifest.now) }
{
    let labels = labels_of(alloc, &manifest.files)?;
    if !has_all(&labels, &entry.references) {
        return Ok(false);
    }
    let has_no_more = has_all(&entry.references, &labels);
    Ok(has_no_more)
}

// Whether the manifest states the backup that the entry does.
fn is_of_entry(
    alloc: Global,
    history: &[Cluster],
    entry: &Entry,
    manifest: &Manifest,
) -> Result<bool, NoMemory>
    ensures yes { IfOk result (λ r. IsTrue r → StatesEntry history.now entry.now manifest.now) }
    ensures no { IfOk result (λ r. r ≡ false → ¬ StatesEntry history.now entry.now manifest.now) }
{
    if !shows_same(entry, manifest) {
        return Ok(false);
    }
    if !has_cluster(history, &manifest.cluster) {
        return Ok(false);
    }
    let same = has_same_references(alloc, entry, manifest)?;
    Ok(same)
}

fn unlike(alloc: Global, name: &str) -> Result<Finding, NoMemory>
    ensures { IfOk result (λ x. Shows x name.now Unlike) }
{
    Ok(Finding {
        name: String::from_str(alloc, name)?,
        kind: FindingKind::Unlike,
        line: String::from_str(alloc, "unlike its entry")?,
    })
}

/// Reports the manifest, where it states another backup than its entry does.
pub(crate) fn tell_unlike(
    alloc: Global,
    name: &str,
    history: &[Cluster],
    entry: &Entry,
    manifest: &Manifest,
    found: &mut Vec<Finding>,
) -> Result<(), NoMemory>
    ensures { OnOk result (AddsUnlike name.now history.now entry.now manifest.now found.old found.new) }
{
    let like = is_of_entry(alloc, history, entry, manifest)?;
    if !like {
        found.push(unlike(alloc, name)?)?;
    }
    Ok(())
}
