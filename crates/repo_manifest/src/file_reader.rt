// Reads the files of a manifest.
ghost use Rattle.std.specs.Prelude.{◌≡◌, ◌≢◌, ◌≤◌, ◌<◌, ◌^◌, Some, None, [], IfOk, IfSome, IfNone, IsTrue, ◌↔◌, option_map};
ghost use Rattle.sha1.specs.Sha1.{sha1};
ghost use Rattle.serde_json.specs.Data.{Data};
ghost use Rattle.serde_json.specs.View.{view};
ghost use Rattle.base_text.specs.Sum.{IsSum};
ghost use Rattle.base_model.specs.Json.{IsValue};
ghost use Rattle.base_model.specs.InfoFiles.{IsLabel};
ghost use Rattle.base_model.specs.ManifestText.{file_field};
ghost use Rattle.base_model.specs.Values.{file_entry_of, FileEntry as SpecFile};
ghost use Rattle.repo_manifest.specs.Alone.{IsFile, IsBundlePlace};
ghost use Rattle.repo_manifest.specs.FileFacts.{file_with, IsFit, SumIs, BundleIs, OffsetIs, FactsAre, StatesFile, StatesNoFile};

use crate::entries::file_value;
use crate::known::FileFacts;
use crate::paths::{is_signal, path_in};
use crate::values::sum_of;
use base_model::{Bundled, FileEntry, Label};
use base_text::{NoMemory, Sum};
use repo_info::label_in;
use repo_keys::{are_same, small_of, whole_of};
use serde_json::Value;
use std::alloc::Global;

fn sum_in(value: &Value) -> Option<Sum>
    ensures sum { IfSome result (λ s. IsSum s.0) }
    ensures only { SumIs (view value.now) result }
{
    sum_of(value.get("checksum")?)
}

#[tactic(auto, using(crate::proofs::FileValues::at_size))]
fn size_in(value: &Value) -> Option<u64>
    ensures { (e : SpecFile) → view value.now ≡ (file_field e).1 → result ≡ Some e.size }
{
    whole_of(value.get("size")?)
}

#[tactic(auto, using(crate::proofs::FileValues::at_timestamp))]
fn time_in(value: &Value) -> Option<u64>
    ensures { (e : SpecFile) → view value.now ≡ (file_field e).1 → result ≡ Some e.time }
{
    whole_of(value.get("timestamp")?)
}

// The label that is referred to, where one is.
fn reference_in(value: &Value) -> Option<Option<Label>>
    ensures rules { IfSome result (λ o. IfSome o IsLabel) }
    ensures only { (e : SpecFile) → IsFile e → view value.now ≡ (file_field e).1 → result ≡ Some e.reference }
{
    let Some(value) = value.get("reference") else {
        return Some(None);
    };
    let label = label_in(value)?;
    Some(Some(label))
}

fn number_in(value: &Value) -> Option<u32>
    ensures { BundleIs (view value.now) result }
{
    small_of(value.get("bni")?)
}

fn at_in(value: &Value) -> Option<u64>
    ensures { OffsetIs (view value.now) result }
{
    whole_of(value.get("bno")?)
}

// The place in a bundle, where there is one.
fn bundle_in(value: &Value) -> Option<Option<Bundled>>
    ensures rules { IfSome result (λ o. IfSome o IsBundlePlace) }
    ensures only { (e : SpecFile) → IsFile e → view value.now ≡ (file_field e).1 → result ≡ Some e.bundle }
{
    if value.get("bni").is_none() {
        return Some(None);
    }
    let number = number_in(value)?;
    let at = at_in(value)?;
    if number == 0 {
        return None;
    }
    Some(Some(Bundled { number, at }))
}

// Whether the sum is that of the empty text.
fn is_of_nothing(sum: &Sum) -> bool
    ensures { IsTrue result ↔ (sum.now.0 ≡ sha1 []) }
{
    sum.0.as_slice() == Sum::of(b"".as_slice()).0.as_slice()
}

// A file without bytes has no place, and the sum of the empty text.
fn is_fit(known: &FileFacts) -> bool
    ensures { IsTrue result ↔ IsFit known.now }
{
    if known.size > 0 {
        return true;
    }
    if known.reference.is_some() {
        return false;
    }
    if known.bundle.is_some() {
        return false;
    }
    is_of_nothing(&known.sum)
}

// What these members state, where the value is that of a file.
fn known_in(value: &Value) -> Option<FileFacts>
    ensures sum { IfSome result (λ t. IsSum t.sum.0) }
    ensures reference { IfSome result (λ t. IfSome t.reference IsLabel) }
    ensures bundle { IfSome result (λ t. IfSome t.bundle IsBundlePlace) }
    ensures only { FactsAre (view value.now) result }
{
    let bundle = bundle_in(value)?;
    let sum = sum_in(value)?;
    let reference = reference_in(value)?;
    let size = size_in(value)?;
    let time = time_in(value)?;
    Some(FileFacts {
        size,
        time,
        sum,
        reference,
        bundle,
    })
}

// What the value states, where it is that of a file.
fn read_as_known(alloc: Global, value: &Value) -> Result<Option<FileFacts>, NoMemory>
    requires { IsValue (view value.now) }
    ensures is { IfOk result (λ o. IfSome o (λ t. view value.now ≡ (file_field (file_with [] t)).1)) }
    ensures sum { IfOk result (λ o. IfSome o (λ t. IsSum t.sum.0)) }
    ensures reference { IfOk result (λ o. IfSome o (λ t. IfSome t.reference IsLabel)) }
    ensures bundle { IfOk result (λ o. IfSome o (λ t. IfSome t.bundle IsBundlePlace)) }
    ensures empty { IfOk result (λ o. IfSome o IsFit) }
    ensures none { IfOk result (λ o. IfNone o ((e : SpecFile) → IsFile e → view value.now ≢ (file_field e).1)) }
{
    let Some(known) = known_in(value) else {
        return Ok(None);
    };
    if !is_fit(&known) {
        return Ok(None);
    }
    let expected = file_value(alloc, &known)?;
    if are_same(alloc, value, &expected)? {
        Ok(Some(known))
    } else {
        Ok(None)
    }
}

/// The file whose key and value these are.
pub(crate) fn read_file(
    alloc: Global,
    key: &str,
    value: &Value,
) -> Result<Option<FileEntry>, NoMemory>
    requires { IsValue (view value.now) }
    ensures rules { IfOk result (λ o. IfSome o (λ e. IsFile (file_entry_of e))) }
    ensures is { IfOk result (λ o. IfSome o (λ e. StatesFile (key.now, view value.now) (file_entry_of e))) }
    ensures none { IfOk result (λ o. IfNone o (StatesNoFile (key.now, view value.now))) }
{
    let Some(path) = path_in(key) else {
        return Ok(None);
    };
    if is_signal(path) {
        return Ok(None);
    }
    let Some(known) = read_as_known(alloc, value)? else {
        return Ok(None);
    };
    Ok(Some(FileEntry {
        path: path.to_string(alloc)?,
        size: known.size,
        time: known.time,
        sum: known.sum,
        reference: known.reference,
        bundle: known.bundle,
    }))
}
