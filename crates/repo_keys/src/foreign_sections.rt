// Sections with other names than a kind of text has.
ghost use Rattle.std.specs.Prelude.{◌≡◌, bytes_eq, OnOk, IfErr, IfSome, IfNone};
ghost use Rattle.std.specs.List.{list_any};
ghost use Rattle.serde_json.specs.Data.{Data};
ghost use Rattle.base_model.specs.Text.{In};
ghost use Rattle.base_model.specs.InfoText.{IsSection, IsInfo};
ghost use Rattle.repo_ini.specs.Parts.{keys_of, section_of, sections_of};
ghost use Rattle.repo_keys.specs.Fault.{IfForm};
ghost use Rattle.repo_keys.specs.Foreign.{names_of, AreNamed, HasOtherName, IsForeignKey};

use crate::fault::PartsFault;
use crate::key_lookup::form;
use repo_ini::Part;
use std::alloc::Global;

fn is_among(names: &[&str], name: &str) -> bool
    ensures { result ≡ list_any (λ n. bytes_eq n name.now) (names_of names.now) }
{
    for n in names {
        if *n == name {
            return true;
        }
    }
    false
}

// The first section that has none of the names.
fn foreign_part<'a>(parts: &'a [Part], names: &[&str]) -> Option<&'a Part>
    ensures some { IfSome result (λ p. HasOtherName (names_of names.now) (sections_of parts.now) (section_of p.now)) }
    ensures none { IfNone result (AreNamed (names_of names.now) (sections_of parts.now)) }
{
    for part in parts {
        if !is_among(names, part.name.as_str()) {
            return Some(part);
        }
    }
    None
}

fn first_key(part: &Part) -> &str
    requires { IsSection (section_of part.now) }
    ensures { (d : Data) × In (result.now, d) (keys_of part.now) }
{
    let k = &part.keys[0];
    k.0.as_str()
}

/// Each section has one of the names, or else the fault is that of the first key of the first one that has none.
pub fn check_names(alloc: Global, parts: &[Part], names: &[&str]) -> Result<(), PartsFault>
    requires { IsInfo (sections_of parts.now) }
    ensures names { OnOk result (AreNamed (names_of names.now) (sections_of parts.now)) }
    ensures fault { IfErr result (λ e. IfForm e (IsForeignKey (names_of names.now) (sections_of parts.now))) }
{
    match foreign_part(parts, names) {
        Some(part) => Err(form(alloc, part.name.as_str(), first_key(part))),
        None => Ok(()),
    }
}
