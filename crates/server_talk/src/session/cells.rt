// The columns of a row.
ghost use Rattle.std.specs.Prelude.{◌≢◌, ◌≤◌, ◌<◌, ◌+◌, ◌^◌, length, IfOk, IfErr};
ghost use Rattle.server_talk.specs.declared.session.fault.ServerFault.TheVariants.{ServerConnection};
ghost use Rattle.server_talk.specs.Cells.{next_cell, text_cell, cells};
ghost use Rattle.server_talk.specs.Views.{left_view, end_place, cells_view};
ghost use Rattle.server_talk.specs.Reads.{Gives};

use crate::session::fault::ServerFault;
use base_text::text_of;
use std::alloc::Global;

// The length of NULL: -1.
const NULL: u32 = 4294967295;

/// The columns so far, and what is left of the row from its place on.
#[derive(Drop)]
pub(crate) struct Left<'a> {
    cells: Vec<Option<String>>,
    at: u64,
    rest: &'a [u8],
}

fn text_cell<'a>(
    alloc: Global,
    mut left: Left<'a>,
    text: &[u8],
    rest: &'a [u8],
) -> Result<Left<'a>, ServerFault>
    requires { left.at + 4 + length text.now < 2 ^ 64 }
    ensures place { IfOk result (λ l. end_place l ≤ left.entry.at + 4 + length text.now + length rest.now) }
    ensures value { Gives left_view result (text_cell (left_view left.entry) (length text.now) text.now rest.now) }
    ensures cause { IfErr result (λ e. e ≢ ServerConnection) }
{
    match text_of(text) {
        Some(text) => {
            left.cells.push(Some(String::from_str(alloc, text)?))?;
            Ok(Left {
                cells: left.cells,
                at: left.at + 4 + text.len() as u64,
                rest,
            })
        }
        None => Err(ServerFault::ServerForm { at: left.at + 4 }),
    }
}

fn next_cell<'a>(alloc: Global, mut left: Left<'a>) -> Result<Left<'a>, ServerFault>
    requires { left.at + 4 + length left.rest.now < 2 ^ 64 }
    ensures value { Gives left_view result (next_cell (left_view left.entry)) }
    ensures cause { IfErr result (λ e. e ≢ ServerConnection) }
    ensures place { IfOk result (λ l. end_place l ≤ end_place left.entry) }
{
    let (prefix, rest) = match left.rest.split_at_checked(4) {
        Some(parts) => parts,
        None => return Err(ServerFault::ServerForm { at: left.at }),
    };
    let count = u32::from_be_bytes([prefix[0], prefix[1], prefix[2], prefix[3]]);
    if count == NULL {
        left.cells.push(None)?;
        return Ok(Left {
            cells: left.cells,
            at: left.at + 4,
            rest,
        });
    }
    match rest.split_at_checked(count as usize) {
        Some((text, after)) => text_cell(alloc, left, text, after),
        None => Err(ServerFault::ServerForm { at: left.at }),
    }
}

/// The columns of a row that has this many. `at` is the place of its body.
pub(crate) fn cells(
    alloc: Global,
    columns: u16,
    at: u64,
    body: &[u8],
) -> Result<Vec<Option<String>>, ServerFault>
    requires { at + 6 + length body.now < 2 ^ 64 }
    ensures value { Gives (λ v. cells_view v.items) result (cells columns at body.now) }
    ensures cause { IfErr result (λ e. e ≢ ServerConnection) }
{
    let rest = match body {
        [a, b, rest @ ..] => if u16::from_be_bytes([*a, *b]) == columns {
            rest
        } else {
            return Err(ServerFault::ServerForm { at });
        },
        _ => return Err(ServerFault::ServerForm { at }),
    };
    let mut left = Left {
        cells: Vec::new(alloc),
        at: at + 2,
        rest,
    };
    for i in 0..columns {
        left = match next_cell(alloc, left) {
            Ok(next) => next,
            Err(fault) => return Err(fault),
        };
    }
    if left.rest.is_empty() {
        Ok(left.cells)
    } else {
        Err(ServerFault::ServerForm { at: left.at })
    }
}
