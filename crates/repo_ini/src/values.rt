//! A value by its one text.

ghost use Rattle.std.specs.Prelude.{◌≡◌, option_map, IfOk};
ghost use Rattle.serde_json.specs.View.{view, items_view, members_view};
ghost use Rattle.serde_json.specs.Written.{has_float, items_have_float, members_have_float};
ghost use Rattle.repo_ini.specs.Reading.{value_of};

use base_text::NoMemory;
use serde_json::{Map, Value};
use std::alloc::Global;

#[cycle(floats)]
fn has_float(value: &Value) -> bool
    ensures { result ≡ has_float (view value.now) }
{
    match value {
        Value::Null => false,
        Value::Bool(_) => false,
        Value::Number(n) => n.is_f64(),
        Value::String(_) => false,
        Value::Array(items) => items_have_float(items),
        Value::Object(members) => members_have_float(members),
    }
}

#[cycle(floats)]
fn items_have_float(items: &[Value]) -> bool
    ensures { result ≡ items_have_float (items_view items.now) }
{
    for item in items {
        if has_float(item) {
            return true;
        }
    }
    false
}

#[cycle(floats)]
fn members_have_float(members: &Map<String, Value>) -> bool
    ensures { result ≡ members_have_float (members_view members.now.entries) }
{
    for (_, member) in members.iter() {
        if has_float(member) {
            return true;
        }
    }
    false
}

// The value whose one text this is.
pub(crate) fn value_of(alloc: Global, text: &[u8]) -> Result<Option<Value>, NoMemory>
    ensures { IfOk result (λ o. option_map view o ≡ value_of text.now) }
{
    let value = match Value::from_slice(alloc, text) {
        Ok(value) => value,
        Err(e) => return if e.is_memory() {
            Err(NoMemory)
        } else {
            Ok(None)
        },
    };
    if has_float(&value) {
        return Ok(None);
    }
    // JSON has many texts of a value, and an info text takes one of them.
    let again = value.to_vec(alloc)?;
    if again.as_slice() == text {
        Ok(Some(value))
    } else {
        Ok(None)
    }
}
