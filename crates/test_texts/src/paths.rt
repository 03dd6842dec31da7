//! Paths below a data folder, and the first fault of each.

use crate::same::{same, same_of};
use repo_names::{NameFault, check_name, check_name_within};
use std::test::Fail;

const ROWS: &[(&str, Result<(), NameFault>)] = &[
    ("base/5/16384", Ok(())),
    ("PG_VERSION", Ok(())),
    ("pg_tblspc/1/\u{fc}.#[", Ok(())),
    ("", Err(NameFault::Empty)),
    ("/base", Err(NameFault::Empty)),
    ("base/", Err(NameFault::Empty)),
    ("base//1", Err(NameFault::Empty)),
    ("base/5/a=b", Err(NameFault::Equals)),
    ("../a=b\n", Err(NameFault::Equals)),
    ("../a\n", Err(NameFault::Control)),
    ("base/\u{7f}", Err(NameFault::Control)),
    ("../#a", Err(NameFault::Head)),
    ("[backup]", Err(NameFault::Head)),
    ("base/./1", Err(NameFault::Dots)),
    ("base/..", Err(NameFault::Dots)),
    ("base/...", Ok(())),
];

#[test]
fn first_faults(rt: HostRuntime) {
    for &(path, answer) in ROWS {
        same_of(&rt, path, check_name(path), answer);
    }
}

#[test]
fn lengths(rt: HostRuntime) -> Result<(), Fail> {
    let full = "x".repeat(rt.alloc(), 1024)?;
    same(&rt, check_name(&full), Ok(()));
    let long = "x".repeat(rt.alloc(), 1025)?;
    same(&rt, check_name(&long), Err(NameFault::TooLong));
    same(&rt, check_name_within(&long, 1200), Ok(()));
    Ok(())
}
