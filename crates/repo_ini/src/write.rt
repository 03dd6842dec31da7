//! From sections to their one text.

ghost use Rattle.std.specs.Prelude.{◌≡◌, ◌++◌, false, map, IfOk, OnOk};
ghost use Rattle.std.specs.List.{flat_map, AllByRecursion};
ghost use Rattle.json.specs.Print.{quoted};
ghost use Rattle.serde_json.specs.View.{view};
ghost use Rattle.serde_json.specs.Written.{has_float};
ghost use Rattle.base_model.specs.InfoText.{key_line, section_text, info_text, signed_text, IsInfo};
ghost use Rattle.repo_ini.specs.Parts.{key_of, section_of, sections_of, NoFloats};
ghost use Rattle.repo_ini.specs.Json.{key_json, keys_json, section_json, sections_json};

use crate::part::Part;
use base_text::{NoMemory, Sum};
use serde_json::Value;
use std::alloc::{AllocError, Global};

// Adds the text as JSON.
fn add_quoted(alloc: Global, text: &str, json: &mut Vec<u8>) -> Result<(), AllocError>
    ensures { OnOk result (json.new.items ≡ json.old.items ++ quoted text.now) }
{
    let value = Value::try_from_str(alloc, text)?;
    let quoted = value.to_vec(alloc)?;
    json.extend_from_slice(&quoted)?;
    Ok(())
}

// Adds a key's line, and its member.
fn add_key(
    alloc: Global,
    key: &(String, Value),
    later: bool,
    text: &mut Vec<u8>,
    json: &mut Vec<u8>,
) -> Result<(), AllocError>
    requires { has_float (view key.now.1) ≡ false }
    ensures text { OnOk result (text.new.items ≡ text.old.items ++ key_line (key_of key.now)) }
    ensures json { OnOk result (json.new.items ≡ json.old.items ++ key_json later (key_of key.now)) }
{
    let value = key.1.to_vec(alloc)?;
    text.extend_from_slice(key.0.as_bytes())?;
    text.push(b'=')?;
    text.extend_from_slice(&value)?;
    text.push(b'\n')?;
    if later {
        json.push(b',')?;
    }
    add_quoted(alloc, key.0.as_str(), json)?;
    json.push(b':')?;
    json.extend_from_slice(&value)?;
    Ok(())
}

// Adds the lines of the keys, and their members with the closing brace.
fn add_keys(
    alloc: Global,
    keys: &[(String, Value)],
    text: &mut Vec<u8>,
    json: &mut Vec<u8>,
) -> Result<(), AllocError>
    requires { NoFloats keys.now }
    ensures text { OnOk result (text.new.items ≡ text.old.items ++ flat_map key_line (map key_of keys.now)) }
    ensures json { OnOk result (json.new.items ≡ json.old.items ++ keys_json (map key_of keys.now)) }
{
    let mut later = false;
    for key in keys {
        add_key(alloc, key, later, text, json)?;
        later = true;
    }
    json.push(b'}')?;
    Ok(())
}

// Adds a section's text, and its member.
fn add_section(
    alloc: Global,
    part: &Part,
    text: &mut Vec<u8>,
    json: &mut Vec<u8>,
) -> Result<(), AllocError>
    requires { NoFloats part.now.keys.items }
    ensures text { OnOk result (text.new.items ≡ text.old.items ++ section_text (section_of part.now)) }
    ensures json { OnOk result (json.new.items ≡ json.old.items ++ section_json (section_of part.now)) }
{
    text.push(b'[')?;
    text.extend_from_slice(part.name.as_bytes())?;
    text.extend_from_slice(b"]\n")?;
    json.push(b',')?;
    add_quoted(alloc, part.name.as_str(), json)?;
    json.extend_from_slice(b":{")?;
    add_keys(alloc, &part.keys, text, json)?;
    text.push(b'\n')?;
    Ok(())
}

// Adds the sections, and their members with the closing brace.
fn add_sections(
    alloc: Global,
    parts: &[Part],
    text: &mut Vec<u8>,
    json: &mut Vec<u8>,
) -> Result<(), AllocError>
    requires { AllByRecursion (λ p. NoFloats p.keys.items) parts.now }
    ensures text { OnOk result (text.new.items ≡ text.old.items ++ flat_map section_text (sections_of parts.now)) }
    ensures json { OnOk result (json.new.items ≡ json.old.items ++ sections_json (sections_of parts.now)) }
{
    for part in parts {
        add_section(alloc, part, text, json)?;
    }
    json.push(b'}')?;
    Ok(())
}

const HEAD: &[u8; 30] = b"[backrest]\nbackrest-format=5\n\n";

const HEAD_JSON: &[u8; 33] = b"{\"backrest\":{\"backrest-format\":5}";

const LAST: &[u8; 30] = b"[backrest]\nbackrest-checksum=\"";

// What the checksum is taken of.
pub(crate) fn signed(alloc: Global, parts: &[Part]) -> Result<Vec<u8>, AllocError>
    requires { AllByRecursion (λ p. NoFloats p.keys.items) parts.now }
    ensures { IfOk result (λ json. json.items ≡ signed_text (sections_of parts.now)) }
{
    // The same walk writes the text, which is not needed here.
    let mut processes = Vec::new(alloc);
    let mut json = Vec::from_slice(alloc, HEAD_JSON.as_slice())?;
    add_sections(alloc, parts, &mut processes, &mut json)?;
    Ok(json)
}

/// The text of the sections, which is the only one that they have.
pub fn write_info_text(alloc: Global, parts: &[Part]) -> Result<Vec<u8>, NoMemory>
    requires { IsInfo (sections_of parts.now) }
    ensures { IfOk result (λ bytes. bytes.items ≡ info_text (sections_of parts.now)) }
{
    let mut text = Vec::from_slice(alloc, HEAD.as_slice())?;
    let mut json = Vec::from_slice(alloc, HEAD_JSON.as_slice())?;
    add_sections(alloc, parts, &mut text, &mut json)?;
    let sum = Sum::of(&json).hex(alloc)?;
    text.extend_from_slice(LAST.as_slice())?;
    text.extend_from_slice(sum.as_bytes())?;
    text.extend_from_slice(b"\"\n")?;
    Ok(text)
}
