// The values of files.
ghost use Rattle.std.specs.Prelude.{◌≡◌, IfOk, OnOk, IfSome, [], codes};
ghost use Rattle.serde_json.specs.View.{view, members_view};
ghost use Rattle.base_model.specs.InfoFiles.{IsLabel};
ghost use Rattle.base_model.specs.ManifestText.{file_field};
ghost use Rattle.repo_manifest.specs.FileFacts.{file_with, with_bundle, with_reference};

use crate::known::FileFacts;
use base_model::{Bundled, Label};
use base_text::NoMemory;
use repo_names::label_text;
use serde_json::{Map, Value, put};
use std::alloc::Global;

fn add_bundle(
    alloc: Global,
    members: &mut Map<String, Value>,
    bundle: Option<Bundled>,
) -> Result<(), NoMemory>
    ensures { OnOk result (members_view members.new.entries ≡ with_bundle bundle (members_view members.old.entries)) }
{
    let Some(bundle) = bundle else {
        return Ok(());
    };
    put(members, alloc, "bni", Value::from(u64::from(bundle.number)))?;
    put(members, alloc, "bno", Value::from(bundle.at))?;
    Ok(())
}

fn add_reference(
    alloc: Global,
    members: &mut Map<String, Value>,
    label: Option<Label>,
) -> Result<(), NoMemory>
    requires { IfSome label IsLabel }
    ensures { OnOk result (members_view members.new.entries ≡ with_reference label (members_view members.old.entries)) }
{
    let Some(label) = label else {
        return Ok(());
    };
    put(
        members,
        alloc,
        "reference",
        Value::String(label_text(alloc, &label)?),
    )?;
    Ok(())
}

/// The value of a file, whatever its path.
pub(crate) fn file_value(alloc: Global, known: &FileFacts) -> Result<Value, NoMemory>
    requires { IfSome known.now.reference IsLabel }
    ensures { IfOk result (λ v. view v ≡ (file_field (file_with [] known.now)).1) }
{
    let mut members = Map::new(alloc);
    add_bundle(alloc, &mut members, known.bundle)?;
    put(
        &mut members,
        alloc,
        "checksum",
        Value::String(known.sum.hex(alloc)?),
    )?;
    add_reference(alloc, &mut members, known.reference)?;
    put(&mut members, alloc, "size", Value::from(known.size))?;
    put(&mut members, alloc, "timestamp", Value::from(known.time))?;
    Ok(Value::Object(members))
}
