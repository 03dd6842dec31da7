// Why no backup is chosen, and why a manifest isn't read.
ghost use Rattle.std.specs.Prelude.{◌≡◌, IfOk};
ghost use Rattle.base_model.specs.InfoFiles.{IsLabel};
ghost use Rattle.cmd_types.specs.Halts.{HaltCause};
ghost use Rattle.restore_choice.specs.Ancestries.{of_archive, of_history};
ghost use Rattle.restore_choice.specs.Choosing.{ShowsMissing};
ghost use Rattle.restore_choice.specs.Loading.{IsOtherLabel, ShowsDamage, ShowsForeign, ShowsPair, FailsPair};

use archive_lookup::ArchiveFault;
use base_model::Label;
use cmd_types::{Halt, Object};
use repo_info::MemberFault;
use repo_names::label_text;
use repo_pair::InfoFault;
use restore_target::HistoryFault;
use std::alloc::{AllocError, Global};

/// Neither member of a manifest can be read.
#[derive(Debug, Drop)]
pub struct DamagedManifest {
    pub label: String,
    pub main: MemberFault,
    pub copy: MemberFault,
}

/// Why no backup is chosen, in the order in which refusals come.
#[derive(Debug, Drop)]
pub enum ChoiceFault {
    /// The stanza has no backup.
    NoBackup,
    /// The stanza has no backup of the label that is asked for.
    SetMissing { label: String },
    /// The archive has no history file of the timeline.
    HistoryMissing { timeline: u32 },
    /// The history file's first line that isn't valid, counted from 1.
    HistoryForm { timeline: u32, line: u32 },
    /// The history file is longer than `limit` bytes.
    HistoryLong { name: String, limit: u64 },
    /// The manifest of a backup is damaged; no later one qualifies.
    ManifestDamaged(DamagedManifest),
    /// No backup qualifies.
    TargetEarly,
}

/// The refusal of a label that isn't listed.
pub(crate) fn missing(alloc: Global, label: &Label) -> Halt<ChoiceFault>
    requires { IsLabel label.now }
    ensures { HaltCause (ShowsMissing label.now) (λ _. ⊥) result }
{
    match label_text(alloc, label) {
        Ok(label) => Halt::Refused(ChoiceFault::SetMissing { label }),
        Err(_) => Halt::NoMemory,
    }
}

// The refusal of a manifest whose members have these faults.
fn damaged(
    alloc: Global,
    label: &Label,
    main: MemberFault,
    copy: MemberFault,
) -> Halt<DamagedManifest>
    requires { IsLabel label.now }
    ensures { HaltCause (ShowsDamage label.now main copy) (λ _. ⊥) result }
{
    match label_text(alloc, label) {
        Ok(label) => Halt::Refused(DamagedManifest { label, main, copy }),
        Err(_) => Halt::NoMemory,
    }
}

// The fault of a member that states another label.
fn other_label(alloc: Global) -> Result<MemberFault, AllocError>
    ensures { IfOk result IsOtherLabel }
{
    Ok(MemberFault::Form {
        section: String::from_str(alloc, "backup")?,
        key: String::from_str(alloc, "backup-label")?,
    })
}

// The two faults of a pair that states another label.
fn other_labels(alloc: Global) -> Result<(MemberFault, MemberFault), AllocError>
    ensures main { IfOk result (λ two. IsOtherLabel two.0) }
    ensures copy { IfOk result (λ two. IsOtherLabel two.1) }
{
    let main = other_label(alloc)?;
    let copy = other_label(alloc)?;
    Ok((main, copy))
}

/// The refusal of a manifest that states another label than this one.
pub(crate) fn foreign(alloc: Global, label: &Label) -> Halt<DamagedManifest>
    requires { IsLabel label.now }
    ensures { HaltCause (ShowsForeign label.now) (λ _. ⊥) result }
{
    match other_labels(alloc) {
        Ok((main, copy)) => damaged(alloc, label, main, copy),
        Err(_) => Halt::NoMemory,
    }
}

/// Why the manifest of this label isn't read.
pub(crate) fn of_pair(alloc: Global, label: &Label, fault: InfoFault) -> Halt<DamagedManifest>
    requires { IsLabel label.now }
    ensures { HaltCause (ShowsPair label.now fault) (FailsPair fault) result }
{
    match fault {
        InfoFault::Missing => damaged(alloc, label, MemberFault::Absent, MemberFault::Absent),
        InfoFault::Damaged { main, copy } => damaged(alloc, label, main, copy),
        InfoFault::Disk => Halt::Failed(Object::Repo),
        InfoFault::NoMemory => Halt::NoMemory,
    }
}

/// Which refusal a fault of the archive is, where the history of this timeline is read.
pub(crate) fn of_archive(timeline: u32, fault: ArchiveFault) -> Halt<ChoiceFault>
    ensures { result ≡ of_archive timeline fault }
{
    match fault {
        ArchiveFault::NotFound => Halt::Refused(ChoiceFault::HistoryMissing { timeline }),
        ArchiveFault::TooLong { name, limit } => {
            Halt::Refused(ChoiceFault::HistoryLong { name, limit })
        }
        ArchiveFault::Disk => Halt::Failed(Object::Repo),
        // The others are of a push, of a listing, or of a segment.
        ArchiveFault::NoMemory
        | ArchiveFault::HeaderForm { .. }
        | ArchiveFault::SegmentSize { .. }
        | ArchiveFault::HeaderMismatch { .. }
        | ArchiveFault::Ambiguous { .. }
        | ArchiveFault::Duplicate { .. }
        | ArchiveFault::SegmentDamaged { .. }
        | ArchiveFault::TooMany { .. } => Halt::NoMemory,
    }
}

/// Which refusal a fault of the history of this timeline is.
pub(crate) fn of_history(timeline: u32, fault: HistoryFault) -> Halt<ChoiceFault>
    ensures { result ≡ of_history timeline fault }
{
    match fault {
        HistoryFault::Form { line } => Halt::Refused(ChoiceFault::HistoryForm { timeline, line }),
        HistoryFault::NoMemory => Halt::NoMemory,
    }
}
