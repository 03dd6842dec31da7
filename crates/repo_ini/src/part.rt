//! A section as a program holds it.

ghost use Rattle.std.specs.Prelude.{◌≡◌, [], ◌∷◌, ◌++◌, IfOk, OnOk, OnErr, string_bytes};
ghost use Rattle.serde_json.specs.View.{view};
ghost use Rattle.repo_ini.specs.Parts.{keys_of};

use base_text::NoMemory;
use serde_json::Value;
use std::alloc::Global;

/// A section of an info text: its name, and its keys with their values.
#[derive(Drop)]
pub struct Part {
    pub name: String,
    pub keys: Vec<(String, Value)>,
}

impl Part {
    /// A section with no key yet.
    pub fn new(alloc: Global, name: &str) -> Result<Part, NoMemory>
        ensures name { IfOk result (λ p. string_bytes p.name ≡ name.now) }
        ensures keys { IfOk result (λ p. keys_of p ≡ []) }
    {
        Ok(Part {
            name: name.to_string(alloc)?,
            keys: Vec::new(alloc),
        })
    }

    /// Adds a key after the others.
    pub fn add(&mut self, alloc: Global, key: &str, value: Value) -> Result<(), NoMemory>
        ensures name { self.new.name ≡ self.old.name }
        ensures ok { OnOk result (keys_of self.new ≡ keys_of self.old ++ (key.now, view value) ∷ []) }
        ensures err { OnErr result (keys_of self.new ≡ keys_of self.old) }
    {
        let key = key.to_string(alloc)?;
        self.keys.push((key, value))?;
        Ok(())
    }
}
