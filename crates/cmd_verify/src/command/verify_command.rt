// verify: the lines of what deviates.
ghost use Rattle.std.specs.Prelude.{◌≡◌, ◌++◌, IfOk, IfErr, OnOk, string_bytes};
ghost use Rattle.std.specs.List.{flat_map};
ghost use Rattle.base_devices.specs.States.{OnlyReads};
ghost use Rattle.base_model.specs.InfoFiles.{IsBackupInfo};
ghost use Rattle.base_model.specs.Values.{backup_info_of};
ghost use Rattle.cmd_verify.specs.Looking.{HoldsBackupPair};
ghost use Rattle.cmd_verify.specs.Verifying.{finding_line, VerifyCommandFails, IsVerified, EndsWithNone, EndsBy};

use crate::command::fault::{VerifyCommandFault, of_verify};
use crate::findings::{Finding, verify};
use base_devices::Disk;
use base_model::BackupInfo;
use cmd_types::{Halt, Outcome};
use std::alloc::{AllocError, Global};

// Adds the line of a finding.
fn add_line(alloc: Global, lines: &mut String, finding: &Finding) -> Result<(), AllocError>
    ensures { OnOk result (string_bytes lines.new ≡ string_bytes lines.old ++ finding_line finding.now) }
{
    let name = finding.name.as_str();
    let known = finding.line.as_str();
    let line = format!(in alloc; "{name}: {known}\n")?;
    lines.push_str(&line)
}

// The lines of findings, in their order.
fn lines_of(alloc: Global, found: &[Finding]) -> Result<String, AllocError>
    ensures { IfOk result (λ lines. string_bytes lines ≡ flat_map finding_line found.now) }
{
    let mut lines = String::new(alloc);
    for finding in found {
        add_line(alloc, &mut lines, finding)?;
    }
    Ok(lines)
}

// How a command ends that found these.
fn outcome_of(alloc: Global, found: &[Finding]) -> Result<Outcome, AllocError>
    ensures { IfOk result (EndsBy found.now) }
{
    let lines = lines_of(alloc, found)?;
    if found.is_empty() {
        Ok(Outcome::Finished { lines })
    } else {
        let count = found.len();
        Ok(Outcome::FindingsFound { lines, count })
    }
}

/// Reports each way in which the stanza's repository deviates, a line a finding, in the order of `verify`; or ends with
/// no lines where there is none. The list of backups is the one that the backup pair has. Nothing is healed.
pub fn verify_stanza<D: Disk>(
    alloc: Global,
    repo: &mut D,
    stanza: &str,
    backup: &BackupInfo,
) -> Result<Outcome, Halt<VerifyCommandFault>>
    requires pair { HoldsBackupPair stanza.now (backup_info_of backup.now) (D.state repo.old) }
    requires valid { IsBackupInfo (backup_info_of backup.now) }
    ensures examined { IfOk result (IsVerified stanza.now (D.state repo.old).view.now) }
    ensures sound { IfOk result (EndsWithNone stanza.now (D.state repo.old).view.now) }
    ensures looks { OnlyReads (D.state repo.old) (D.state repo.new) }
    ensures cause { IfErr result (VerifyCommandFails stanza.now (D.state repo.old) (D.state repo.new)) }
{
    match verify(alloc, repo, stanza, backup) {
        Ok(found) => Ok(outcome_of(alloc, &found)?),
        Err(fault) => Err(of_verify(fault)),
    }
}
