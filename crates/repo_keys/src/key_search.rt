// A key is searched for among keys in byte order.
ghost use Rattle.std.specs.Prelude.{◌≡◌, map, IsTrue, ◌↔◌};
ghost use Rattle.serde_json.specs.Data.{Data};
ghost use Rattle.base_model.specs.Text.{In};
ghost use Rattle.repo_ini.specs.Parts.{key_of};
ghost use Rattle.repo_keys.specs.Agree.{IsOrdered};

use repo_ini::is_before;
use serde_json::Value;

/// Whether one of the keys has this name; they are in byte order.
pub fn is_key(keys: &[(String, Value)], key: &str) -> bool
    requires { IsOrdered (map key_of keys.now) }
    ensures { IsTrue result ↔ ((d : Data) × In (key.now, d) (map key_of keys.now)) }
{
    let mut low = 0;
    let mut high = keys.len();
    while low < high {
        let middle = low + (high - low) / 2;
        let name = keys[middle].0.as_str();
        if name == key {
            return true;
        }
        if is_before(key.as_bytes(), name.as_bytes()) {
            high = middle;
        } else {
            low = middle + 1;
        }
    }
    false
}
