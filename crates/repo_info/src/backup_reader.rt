// From a text to the value of `backup.info`.
ghost use Rattle.std.specs.Prelude.{◌≡◌, ◌<◌, ◌^◌, map, length, IfOk, IfErr, refl};
ghost use Rattle.std.proofs.Common.{lit<};
ghost use Rattle.std.specs.List.{AllByRecursion};
ghost use Rattle.base_model.specs.InfoText.{Section, IsInfo, info_text};
ghost use Rattle.base_model.specs.InfoFiles.{backup_sections, IsBackupInfo, IsBackupText};
ghost use Rattle.base_model.specs.Values.{backup_info_of, entry_of, BackupInfo as SpecBackupInfo};
ghost use Rattle.repo_ini.specs.Parts.{sections_of};
ghost use Rattle.repo_keys.specs.Fault.{IfForm};
ghost use Rattle.repo_info.specs.BackupForm.{highest, IsBackupForm};

use crate::backup_current::current_of;
use crate::fault::MemberFault;
use crate::history::history_of;
use crate::limits::LIMIT;
use crate::listed::listed_of;
use crate::read_info::ReadInfo;
use crate::texts::sections_in;
use base_model::{BackupInfo, Entry};
use base_text::NoMemory;
use repo_ini::Part;
use repo_keys::{PartsFault, check_names, form, keys_at, part_of};
use std::alloc::Global;

// The highest history number of the backups, or 0.
fn highest(backups: &[Entry]) -> u32
    ensures { result ≡ highest (map entry_of backups.now) }
{
    let mut number = 0;
    for e in backups {
        if e.db > number {
            number = e.db;
        }
    }
    number
}

const NAMES: &[&str] = &["backup:current", "db", "db:history"];

// The value of sections.
fn backup_of(alloc: Global, parts: &[Part]) -> Result<BackupInfo, PartsFault>
    requires info { IsInfo (sections_of parts.now) }
    requires few { AllByRecursion (λ (s : Section). length s.keys < 2 ^ 32) (sections_of parts.now) }
    ensures sections { IfOk result (λ v. backup_sections (backup_info_of v) ≡ sections_of parts.now) }
    ensures valid { IfOk result (λ v. IsBackupInfo (backup_info_of v)) }
    ensures fault { IfErr result (λ e. IfForm e (IsBackupForm (sections_of parts.now))) }
{
    let backups = listed_of(alloc, keys_at(parts, "backup:current"))?;
    let current = current_of(alloc, keys_at(parts, "db"))?;
    let Some(past) = part_of(parts, "db:history") else {
        return Err(form(alloc, "db:history", "1"));
    };
    let least = highest(&backups).max(current.id);
    let history = history_of(alloc, past, &current, least)?;
    check_names(alloc, parts, NAMES)?;
    Ok(BackupInfo {
        current: current.id,
        history,
        backups,
    })
}

impl ReadInfo for BackupInfo {
    ghost Value = { SpecBackupInfo };

    ghost value = { backup_info_of };

    ghost IsText = { IsBackupText };

    ghost text = { λ v. info_text (backup_sections v) };

    ghost IsForm = { IsBackupForm };

    fn limit() -> u64 {
        LIMIT
    }

    fn read(alloc: Global, bytes: &[u8]) -> Result<Result<Self, MemberFault>, NoMemory> {
        let parts = match sections_in(alloc, bytes)? {
            Ok(parts) => parts,
            Err(fault) => return Ok(Err(fault)),
        };
        match backup_of(alloc, &parts) {
            Ok(value) => Ok(Ok(value)),
            Err(PartsFault::Form { section, key }) => Ok(Err(MemberFault::Form { section, key })),
            Err(PartsFault::NoMemory) => Err(NoMemory),
        }
    }

    ghost one_text = { λ v b h. h.spelled };

    ghost within = { λ v b h. h.within };

    ghost own_text = { λ v. refl };

    ghost small = { lit< tt };
}
