// The folders that the section `target:path` states.
ghost use Rattle.std.specs.Prelude.{◌≡◌, ◌≢◌, ◌∷◌, ◌↔◌, map, true, IfOk, IfErr, IfSome, IfNone, IsTrue, string_bytes};
ghost use Rattle.std.specs.List.{AllByRecursion};
ghost use Rattle.serde_json.specs.Data.{object, no_members};
ghost use Rattle.serde_json.specs.View.{view};
ghost use Rattle.base_model.specs.ManifestText.{folder_field};
ghost use Rattle.repo_ini.specs.Parts.{key_of};
ghost use Rattle.repo_keys.specs.Agree.{IsOrdered};
ghost use Rattle.repo_manifest.specs.Alone.{IsDirectory};
ghost use Rattle.repo_keys.specs.Fault.{IsFaultIn};
ghost use Rattle.repo_manifest.specs.Sections.{target_path, root_field, StatesFolder, StatesNoFolder, IsNoDirectory, IsNoFolder, IsRootKey};

use crate::paths::{below, is_signal, path_in};
use repo_keys::{PartsFault, form};
use serde_json::Value;
use std::alloc::Global;

// Whether the value is an object without members.
fn is_plain(value: &Value) -> bool
    ensures { IsTrue result ↔ (view value.now ≡ object no_members) }
{
    match value.as_object() {
        Some(members) => members.is_empty(),
        None => false,
    }
}

/// The folder whose key and value these are.
fn read_folder<'a>(key: &'a str, value: &Value) -> Option<&'a str>
    ensures some { IfSome result (λ p. StatesFolder (key.now, view value.now) p.now) }
    ensures none { IfNone result (StatesNoFolder (key.now, view value.now)) }
{
    let path = path_in(key)?;
    if is_signal(path) {
        return None;
    }
    if path == "postgresql.auto.conf" {
        return None;
    }
    if is_plain(value) { Some(path) } else { None }
}

// Whether this is the data folder's own key.
fn is_root(k: &(String, Value)) -> bool
    ensures { IsTrue result ↔ (key_of k.now ≡ root_field) }
{
    k.0.as_str() == "pg_data" && is_plain(&k.1)
}

// The folders below the data folder that these keys state.
fn more_of(alloc: Global, keys: &[(String, Value)]) -> Result<Vec<String>, PartsFault>
    ensures folders { IfOk result (λ v. AllByRecursion IsDirectory (map string_bytes v.items)) }
    ensures keys { IfOk result (λ v. map folder_field (map string_bytes v.items) ≡ map key_of keys.now) }
    ensures fault { IfErr result (IsFaultIn target_path (IsNoDirectory (map key_of keys.now))) }
{
    let mut folders = Vec::new(alloc);
    for k in keys {
        let Some(path) = read_folder(k.0.as_str(), &k.1) else {
            return Err(form(alloc, "target:path", k.0.as_str()));
        };
        folders.push(path.to_string(alloc)?)?;
    }
    Ok(folders)
}

// The fault of keys that don't begin with the data folder's own.
fn fault_of_root(alloc: Global, key: &str) -> PartsFault
    ensures { IsFaultIn target_path (IsRootKey key.now) result }
{
    if below(key).is_some() {
        form(alloc, "target:path", "pg_data")
    } else {
        form(alloc, "target:path", key)
    }
}

/// The folders that the keys state, but the data folder itself.
pub(crate) fn folders_of(alloc: Global, keys: &[(String, Value)]) -> Result<Vec<String>, PartsFault>
    requires { IsOrdered (map key_of keys.now) }
    ensures folders { IfOk result (λ v. AllByRecursion IsDirectory (map string_bytes v.items)) }
    ensures keys { IfOk result (λ v. map key_of keys.now
        ≡ root_field ∷ map folder_field (map string_bytes v.items)) }
    ensures fault { IfErr result (IsFaultIn target_path (IsNoFolder (map key_of keys.now))) }
{
    let [root, rest @ ..] = keys else {
        return Err(form(alloc, "target:path", "pg_data"));
    };
    if !is_root(root) {
        return Err(fault_of_root(alloc, root.0.as_str()));
    }
    more_of(alloc, rest)
}
