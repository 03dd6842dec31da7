// What is rehearsed.
ghost use Rattle.std.specs.Prelude.{◌≤◌};

use cmd_backup_common::TakeOrder;

/// Of which stanza, and over which data folder and which repository, a cluster is rehearsed, by how many workers each,
/// and of which size.
#[derive(Clone, Copy)]
pub struct RehearseOrder<'a> {
    pub stanza: &'a str,
    pub take: TakeOrder<'a>,
    pub number: u32,
    ghost few: { number ≤ 64 },
}
