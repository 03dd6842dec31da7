// Whether the folders on a path are listed.
ghost use Rattle.std.specs.Prelude.{◌≡◌, ◌↔◌, [], map, true, false, IsTrue, string_bytes};
ghost use Rattle.base_devices.specs.Order.{are_after};
ghost use Rattle.base_model.specs.Text.{In};
ghost use Rattle.base_model.specs.ManifestText.{HasItsFolders};
ghost use Rattle.repo_manifest.specs.Sections.{Lacks};

use repo_ini::is_before;

/// Whether the path is one of these, which are in byte order.
pub(crate) fn is_listed(folders: &[String], path: &[u8]) -> bool
    requires { are_after [] (map string_bytes folders.now) ≡ true }
    ensures { IsTrue result ↔ In path.now (map string_bytes folders.now) }
{
    let mut low = 0;
    let mut high = folders.len();
    while low < high {
        let middle = low + (high - low) / 2;
        let name = folders[middle].as_bytes();
        if name == path {
            return true;
        }
        if is_before(path, name) {
            high = middle;
        } else {
            low = middle + 1;
        }
    }
    false
}

/// Whether a folder on the path isn't listed.
pub(crate) fn lacks_folder(folders: &[String], path: &str) -> bool
    requires { are_after [] (map string_bytes folders.now) ≡ true }
    ensures lacks { result ≡ true → Lacks (map string_bytes folders.now) path.now }
    ensures has { result ≡ false → HasItsFolders (map string_bytes folders.now) path.now }
{
    let bytes = path.as_bytes();
    for i in 0..bytes.len() {
        if bytes[i] == b'/' {
            if !is_listed(folders, &bytes[..i]) {
                return true;
            }
        }
    }
    false
}
