// What a rehearsal reports at its end.
ghost use Rattle.std.specs.Prelude.{◌≡◌, ◌≤◌, IfOk, string_bytes};
ghost use Rattle.cmd_rehearse.specs.Telling.{count_line, amount_line, made_lines, backup_lines, end_lines, summary_of};

use crate::backup_totals::Amount;
use std::alloc::{AllocError, Global};

/// The files and bytes that each backup stored itself, the labels that the expiry removed, the stored files that it
/// kept, the files and bytes that were restored, and the findings.
#[derive(Clone, Copy, Debug)]
pub struct Summary {
    pub first: Amount,
    pub second: Amount,
    pub third: Amount,
    pub expired: usize,
    pub kept: usize,
    pub restored: Amount,
    pub findings: usize,
}

fn count_line(alloc: Global, word: &str, count: u64) -> Result<String, AllocError>
    ensures { IfOk result (λ line. string_bytes line ≡ count_line word.now count) }
{
    format!(in alloc; "{word} {count}\n")
}

fn amount_line(alloc: Global, word: &str, amount: Amount) -> Result<String, AllocError>
    ensures { IfOk result (λ line. string_bytes line ≡ amount_line word.now amount) }
{
    let files = amount.files;
    let bytes = amount.bytes;
    format!(in alloc; "{word} {files} {bytes}\n")
}

// What is made of a cluster of this number.
fn made_lines(alloc: Global, number: u32) -> Result<String, AllocError>
    requires { number ≤ 64 }
    ensures { IfOk result (λ lines. string_bytes lines ≡ made_lines number) }
{
    let files = count_line(alloc, "files", (100 * number + 2) as u64)?;
    let segments = count_line(alloc, "segments", (2 * number) as u64)?;
    format!(in alloc; "{files}{segments}")
}

fn backup_lines(alloc: Global, summary: &Summary) -> Result<String, AllocError>
    ensures { IfOk result (λ lines. string_bytes lines ≡ backup_lines summary.now) }
{
    let first = amount_line(alloc, "full", summary.first)?;
    let second = amount_line(alloc, "incr", summary.second)?;
    let third = amount_line(alloc, "full", summary.third)?;
    format!(in alloc; "{first}{second}{third}")
}

// What is left of it in the end.
fn end_lines(alloc: Global, summary: &Summary) -> Result<String, AllocError>
    ensures { IfOk result (λ lines. string_bytes lines ≡ end_lines summary.now) }
{
    let expired = count_line(alloc, "expired", summary.expired as u64)?;
    let kept = count_line(alloc, "kept", summary.kept as u64)?;
    let restored = amount_line(alloc, "restored", summary.restored)?;
    let findings = count_line(alloc, "findings", summary.findings as u64)?;
    format!(in alloc; "{expired}{kept}{restored}{findings}")
}

/// The summary of a rehearsal of this number, a line for each step.
pub(crate) fn summary_of(
    alloc: Global,
    number: u32,
    summary: &Summary,
) -> Result<String, AllocError>
    requires { number ≤ 64 }
    ensures { IfOk result (λ lines. string_bytes lines ≡ summary_of number summary.now) }
{
    let made = made_lines(alloc, number)?;
    let backups = backup_lines(alloc, summary)?;
    let end = end_lines(alloc, summary)?;
    format!(in alloc; "{made}{backups}{end}")
}
