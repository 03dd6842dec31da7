// Whether a path lies below another, and through which folder.
ghost use Rattle.std.specs.Prelude.{◌≡◌, ◌≢◌, ◌∷◌, ◌++◌, Some, option_map, IfSome, IfNone};
ghost use Rattle.base_devices.specs.Content.{Name, is_below, IsFolderName};
ghost use Rattle.memory_devices.specs.State.{is_directly_in, takes_in};
ghost use Rattle.memory_devices.specs.Listed.{IsFirstFolder, IsFolderWithin};

use crate::change::Sweep;

/// Whether the path lies at some depth below the folder.
pub(crate) fn lies_below(path: &str, folder: &str) -> bool
    ensures { result ≡ is_below folder.now path.now }
{
    match path.as_bytes().strip_prefix(folder.as_bytes()) {
        Some(rest) => rest.starts_with(b"/"),
        None => false,
    }
}

/// Whether the path lies in the folder, and in none within it.
pub(crate) fn lies_directly_in(path: &str, folder: &str) -> bool
    ensures { result ≡ is_directly_in folder.now path.now }
{
    lies_below(path, folder) && !path.as_bytes()[folder.len() + 1..].contains(&b'/')
}

/// Whether a sweep of the folder takes the path in.
pub(crate) fn is_taken_in(sweep: Sweep, path: &str, folder: &str) -> bool
    ensures { result ≡ takes_in sweep folder.now path.now }
{
    match sweep {
        Sweep::SyncFolders | Sweep::Sync => lies_below(path, folder),
        Sweep::SyncFolder => lies_directly_in(path, folder),
    }
}

// What comes after the folder and a slash.
fn after_folder<'a>(path: &'a str, folder: &str) -> Option<&'a str>
    ensures value { IfSome result (λ rest. path.now ≡ folder.now ++ 47 ∷ rest.now) }
    ensures none { IfNone result ((rest : Name) → path.now ≢ folder.now ++ 47 ∷ rest) }
{
    path.strip_prefix(folder)?.strip_prefix("/")
}

// What comes before the first slash, where it is a folder's name.
fn first_folder(path: &str) -> Option<&str>
    ensures value { IfSome result (λ x. IsFolderName x.now) }
    ensures first { IsFirstFolder path.now (option_map (λ t. t.now) result) }
{
    let (name, _) = path.split_once('/')?;
    if name.is_empty() { None } else { Some(name) }
}

/// The name of the folder directly in this one through which the path leads, where it does.
pub(crate) fn folder_within<'a>(path: &'a str, folder: &str) -> Option<&'a str>
    ensures value { IfSome result (λ x. IsFolderName x.now) }
    ensures within { IsFolderWithin path.now folder.now (option_map (λ t. t.now) result) }
{
    first_folder(after_folder(path, folder)?)
}
