// Writes the report as text.
ghost use Rattle.std.specs.Prelude.{◌≡◌, map, IfOk, string_bytes};
ghost use Rattle.base_model.specs.InfoFiles.{IsBackupInfo};
ghost use Rattle.base_model.specs.Values.{backup_info_of, entry_of};
ghost use Rattle.cmd_info.specs.Lines.{texts_of};
ghost use Rattle.cmd_info.specs.ReportText.{status_text, stanza_lines, text_of_report};

use crate::report::backups::add_backups;
use crate::report::clusters::add_clusters;
use crate::report::lines::{add_line, text_of_lines};
use crate::report::report::Report;
use base_model::Entry;
use base_text::NoMemory;
use std::alloc::Global;

fn status_text(backups: &[Entry]) -> &'static str
    ensures { result.now ≡ status_text (map entry_of backups.now) }
{
    if backups.is_empty() {
        "error (no valid backups)"
    } else {
        "ok"
    }
}

fn stanza_lines(alloc: Global, stanza: &str, backups: &[Entry]) -> Result<Vec<String>, NoMemory>
    ensures { IfOk result (λ lines. texts_of lines ≡ stanza_lines stanza.now (map entry_of backups.now)) }
{
    let status = status_text(backups);
    let mut lines = Vec::new(alloc);
    add_line(&mut lines, format!(in alloc; "stanza: {stanza}")?)?;
    add_line(&mut lines, format!(in alloc; "    status: {status}")?)?;
    add_line(&mut lines, "    cipher: none".to_string(alloc)?)?;
    Ok(lines)
}

#[tactic(auto, using(crate::proofs::Texts::texts_listed), unfolding(crate::specs::ReportText::report_text_of))]
/// The report as text, for a reader; each line ends with a newline.
pub fn report_text(alloc: Global, report: &Report<'_>) -> Result<String, NoMemory>
    requires { IsBackupInfo (backup_info_of report.now.info.now) }
    ensures { IfOk result (λ t. string_bytes t ≡ text_of_report report.now) }
{
    let archive = report.archive;
    let backups = &report.info.backups;
    let mut lines = stanza_lines(alloc, report.stanza, backups)?;
    add_clusters(
        alloc,
        &mut lines,
        archive.current,
        &archive.history,
        report.archived,
    )?;
    add_backups(alloc, &mut lines, backups)?;
    text_of_lines(alloc, &lines)
}
