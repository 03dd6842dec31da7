// From a text to the value of `archive.info`.
ghost use Rattle.std.specs.Prelude.{◌≡◌, IfOk, IfErr, refl};
ghost use Rattle.std.proofs.Common.{lit<};
ghost use Rattle.base_model.specs.InfoText.{IsInfo, info_text};
ghost use Rattle.base_model.specs.InfoFiles.{archive_sections, IsArchiveInfo, IsArchiveText};
ghost use Rattle.base_model.specs.Values.{archive_info_of, ArchiveInfo as SpecArchiveInfo};
ghost use Rattle.repo_ini.specs.Parts.{sections_of};
ghost use Rattle.repo_keys.specs.Fault.{IfForm};
ghost use Rattle.repo_info.specs.ArchiveForm.{IsArchiveForm};

use crate::archive_current::current_of;
use crate::fault::MemberFault;
use crate::history::history_of;
use crate::limits::LIMIT;
use crate::read_info::ReadInfo;
use crate::texts::sections_in;
use base_model::ArchiveInfo;
use base_text::NoMemory;
use repo_ini::Part;
use repo_keys::{PartsFault, check_names, form, part_of};
use std::alloc::Global;

const NAMES: &[&str] = &["db", "db:history"];

// The value of sections.
fn archive_of(alloc: Global, parts: &[Part]) -> Result<ArchiveInfo, PartsFault>
    requires { IsInfo (sections_of parts.now) }
    ensures sections { IfOk result (λ v. archive_sections (archive_info_of v) ≡ sections_of parts.now) }
    ensures valid { IfOk result (λ v. IsArchiveInfo (archive_info_of v)) }
    ensures fault { IfErr result (λ e. IfForm e (IsArchiveForm (sections_of parts.now))) }
{
    let Some(db) = part_of(parts, "db") else {
        return Err(form(alloc, "db", "db-id"));
    };
    let current = current_of(alloc, db)?;
    let Some(past) = part_of(parts, "db:history") else {
        return Err(form(alloc, "db:history", "1"));
    };
    let history = history_of(alloc, past, &current, current.id)?;
    check_names(alloc, parts, NAMES)?;
    Ok(ArchiveInfo {
        current: current.id,
        history,
    })
}

impl ReadInfo for ArchiveInfo {
    ghost Value = { SpecArchiveInfo };

    ghost value = { archive_info_of };

    ghost IsText = { IsArchiveText };

    ghost text = { λ v. info_text (archive_sections v) };

    ghost IsForm = { IsArchiveForm };

    fn limit() -> u64 {
        LIMIT
    }

    fn read(alloc: Global, bytes: &[u8]) -> Result<Result<Self, MemberFault>, NoMemory> {
        let parts = match sections_in(alloc, bytes)? {
            Ok(parts) => parts,
            Err(fault) => return Ok(Err(fault)),
        };
        match archive_of(alloc, &parts) {
            Ok(value) => Ok(Ok(value)),
            Err(PartsFault::Form { section, key }) => Ok(Err(MemberFault::Form { section, key })),
            Err(PartsFault::NoMemory) => Err(NoMemory),
        }
    }

    ghost one_text = { λ v b h. h.spelled };

    ghost within = { λ v b h. h.within };

    ghost own_text = { λ v. refl };

    ghost small = { lit< tt };
}
