// Paths that a backup may hold, and the first fault of the others.
ghost use Rattle.std.specs.Prelude.{◌≡◌, ◌==◌, ◌||◌, ◌↔◌, nat_lt, IsOk, IfErr, length};
ghost use Rattle.std.specs.List.{list_any};
ghost use Rattle.base_model.specs.Paths.{IsPath, elements};
ghost use Rattle.repo_names.specs.Faults.{IsNameFault, IsFirstFault, IsPathWithin, has_mark, is_dots};

use thiserror::Error;

/// Why a path can't be in a backup: the first fault in this order.
#[derive(Clone, Copy, Debug, PartialEq, Eq, Error)]
pub enum NameFault {
    /// It is empty, or two slashes follow each other, or one is at an end.
    #[error("path has an empty element")]
    Empty,
    /// It has more bytes than it may, in a data folder 1,024.
    #[error("path is too long")]
    TooLong,
    /// It has an `=`.
    #[error("path has an equals sign")]
    Equals,
    /// It has a character below 32, or 127.
    #[error("path has a control character")]
    Control,
    /// An element begins with `[` or `#`.
    #[error("path has an element that begins with '[' or '#'")]
    Head,
    /// An element is `.` or `..`.
    #[error("path has an element '.' or '..'")]
    Dots,
}

// The most bytes of a path in a data folder.
const LIMIT: usize = 1024;

fn has_empty(path: &str) -> bool
    ensures { result ≡ list_any (λ e. length e == 0) (elements path.now) }
{
    path.split('/').any(|element| element.is_empty())
}

fn has_equals(path: &str) -> bool
    ensures { result ≡ list_any (λ c. c == 61) path.now }
{
    path.bytes().any(|c| c == b'=')
}

fn has_control(path: &str) -> bool
    ensures { result ≡ list_any (λ c. nat_lt c 32 || c == 127) path.now }
{
    path.bytes().any(|c| c < 32 || c == 127)
}

fn is_marked(element: &str) -> bool
    ensures { result ≡ has_mark element.now }
{
    match element.as_bytes() {
        [] => false,
        [c, ..] => *c == b'[' || *c == b'#',
    }
}

fn has_marked(path: &str) -> bool
    ensures { result ≡ list_any has_mark (elements path.now) }
{
    path.split('/').any(|element| is_marked(element))
}

fn is_dots(element: &str) -> bool
    ensures { result ≡ is_dots element.now }
{
    element == "." || element == ".."
}

fn has_dots(path: &str) -> bool
    ensures { result ≡ list_any is_dots (elements path.now) }
{
    path.split('/').any(|element| is_dots(element))
}

/// Checks a path that may have this many bytes.
pub fn check_name_within(path: &str, limit: usize) -> Result<(), NameFault>
    // It passes exactly where it is such a path.
    ensures good { IsOk result ↔ IsPathWithin limit path.now }
    // Else its first fault is reported.
    ensures fault { IfErr result (IsFirstFault limit path.now) }
{
    if has_empty(path) {
        return Err(NameFault::Empty);
    }
    if path.len() > limit {
        return Err(NameFault::TooLong);
    }
    if has_equals(path) {
        return Err(NameFault::Equals);
    }
    if has_control(path) {
        return Err(NameFault::Control);
    }
    if has_marked(path) {
        return Err(NameFault::Head);
    }
    if has_dots(path) {
        return Err(NameFault::Dots);
    }
    Ok(())
}

/// Checks that a path, from the data folder on, may be in a backup.
pub fn check_name(path: &str) -> Result<(), NameFault>
    // It passes exactly where it is such a path.
    ensures good { IsOk result ↔ IsPath path.now }
    // Else its first fault is reported.
    ensures fault { IfErr result (IsNameFault path.now) }
{
    check_name_within(path, LIMIT)
}
