// What is to be restored.
ghost use Rattle.std.specs.Prelude.{◌≡◌, ◌<◌, ◌^◌, length, option_map, IfOk, IfErr, IfSome, IfNone};
ghost use Rattle.cmd_types.specs.Halts.{HaltCause};
ghost use Rattle.restore_choice.specs.Choices.{IsChoice-prop, IsChoice};
ghost use Rattle.cmd_restore.specs.Words.{ShowsSet, ShowsKind, ShowsDeadline, ShowsChoice, WordCause, IsNoLabel, IsNoKind, IsNoTarget, IsSet, number_of, choice_of};
ghost use Rattle.cmd_restore.specs.Fetching.{recovery_type};

use crate::fault::RestoreCommandFault;
use base_model::{ArchiveInfo, BackupInfo, Label};
use cmd_types::Halt;
use repo_names::{read_label, read_lsn};
use restore_choice::{Bounds, Choice, Deadline};
use restore_target::{is_restore_point, is_transaction, read_moment};

/// What a target of a recovery is (PostgreSQL manual, "Recovery Target").
#[derive(Clone, Copy, Debug, PartialEq, Eq)]
pub enum TargetKind {
    Time,
    Position,
    Transaction,
    RestorePoint,
}

/// What a server does at its target.
#[derive(Clone, Copy, Debug, PartialEq, Eq)]
pub enum TargetAction {
    Pause,
    Promote,
    Shutdown,
}

/// The timeline along which a server recovers.
#[derive(Clone, Copy, Debug, PartialEq, Eq)]
pub enum Timeline {
    /// The one of the backup.
    Current,
    /// The latest in the archive.
    Latest,
    /// The one of this number.
    Number(u32),
}

/// Up to where a server recovers, as the arguments have it.
#[derive(Clone, Copy, Debug)]
pub struct RecoveryTarget<'a> {
    pub kind: TargetKind,
    pub text: &'a str,
    /// Whether it stops before the target.
    pub exclusive: bool,
    pub action: TargetAction,
}

/// Where a recovery ends.
#[derive(Clone, Copy, Debug)]
pub enum RecoveryEnd<'a> {
    /// At the end of the archive.
    Archive,
    /// As soon as the backup is consistent.
    Consistent(TargetAction),
    /// At a target.
    Target(RecoveryTarget<'a>),
    /// Nowhere: the server stays a standby.
    Standby,
}

/// A recovery from the archive.
#[derive(Clone, Copy, Debug)]
pub struct LogRecovery<'a> {
    /// The arguments by which the server fetches the log.
    pub fetch: FetchArguments<'a>,
    pub end: RecoveryEnd<'a>,
    pub timeline: Option<Timeline>,
    /// Settings of one's own, `name=value`.
    pub own: &'a [String],
}

/// How the server is to recover (pgBackRest command reference, "Restore Command", option `type`).
#[derive(Clone, Copy, Debug)]
pub enum RecoveryType<'a> {
    /// Not at all.
    Nothing,
    FromArchive(LogRecovery<'a>),
}

/// The arguments of a restore that the server gives too, as it fetches the log.
#[derive(Clone, Copy, Debug)]
pub struct FetchArguments<'a> {
    pub config: Configuration<'a>,
    /// The data folder, where the arguments name it.
    pub pg1_path: Option<&'a str>,
    /// The repository, where the arguments name it.
    pub repo1_path: Option<&'a str>,
}

/// Which configuration the arguments name.
#[derive(Clone, Copy, Debug)]
pub enum Configuration<'a> {
    /// They don't say.
    Usual,
    /// None is read.
    Nowhere,
    /// The one at this path.
    Named(&'a str),
}

/// Into which data folder which backup of which repository is put, and how many workers read it at most.
#[derive(Clone, Copy)]
pub struct RecoverOrder<'a> {
    pub data_folder: &'a str,
    pub repository: &'a str,
    pub choice: Choice,
    pub workers: u32,
    /// Whether a folder with a cluster may be restored into, and its equal files stay.
    pub delta: bool,
    pub recovery: RecoveryType<'a>,
    // Each worker is given both folders, with lengths of 16 bits.
    ghost short: { length data_folder.now < 2 ^ 16 },
    ghost repository_short: { length repository.now < 2 ^ 16 },
    ghost label: { IsChoice choice } by { IsChoice-prop choice },
}

/// The values of the two info pairs.
#[derive(Clone, Copy)]
pub struct InfoValues<'a> {
    pub archive: &'a ArchiveInfo,
    pub backup: &'a BackupInfo,
}

// The label of which the value of the option `set` is the text, where one is given; None where it is no label's.
fn read_set(set: Option<&str>) -> Option<Option<Label>>
    ensures shows { IfSome result (ShowsSet (option_map (λ w. w.now) set.entry)) }
    ensures label { IfSome result IsSet }
    ensures none { IfNone result (IsNoLabel (option_map (λ w. w.now) set.entry)) }
{
    match set {
        None => Some(None),
        Some(word) => match read_label(word.as_bytes()) {
            Some(label) => Some(Some(label)),
            None => None,
        },
    }
}

// By when a backup has to have ended for a target, where it is one of time or a position; None where it has no form.
fn read_kind(kind: TargetKind, text: &str) -> Option<Option<Deadline>>
    ensures shows { IfSome result (ShowsKind kind text.now) }
    ensures none { IfNone result (IsNoKind kind text.now) }
{
    match kind {
        TargetKind::Time => match read_moment(text) {
            Some(moment) => Some(Some(Deadline::Moment(moment))),
            None => None,
        },
        TargetKind::Position => match read_lsn(text.as_bytes()) {
            Some(position) => Some(Some(Deadline::Position(position))),
            None => None,
        },
        TargetKind::Transaction => if is_transaction(text) {
            Some(None)
        } else {
            None
        },
        TargetKind::RestorePoint => if is_restore_point(text) {
            Some(None)
        } else {
            None
        },
    }
}

// By when a backup has to have ended for a recovery's target; None where the target has no form.
fn read_target(recovery: &RecoveryType<'_>) -> Option<Option<Deadline>>
    ensures shows { IfSome result (ShowsDeadline (recovery_type recovery.now)) }
    ensures none { IfNone result (IsNoTarget (recovery_type recovery.now)) }
{
    match recovery {
        RecoveryType::Nothing => Some(None),
        RecoveryType::FromArchive(recovery) => match &recovery.end {
            RecoveryEnd::Target(target) => read_kind(target.kind, target.text),
            RecoveryEnd::Archive | RecoveryEnd::Consistent(_) | RecoveryEnd::Standby => Some(None),
        },
    }
}

// The number of the timeline along which the server recovers, where it is asked for.
fn number_of(recovery: &RecoveryType<'_>) -> Option<u32>
    ensures { result ≡ number_of (recovery_type recovery.now) }
{
    match recovery {
        RecoveryType::Nothing => None,
        RecoveryType::FromArchive(recovery) => match recovery.timeline {
            Some(Timeline::Number(number)) => Some(number),
            Some(Timeline::Current | Timeline::Latest) | None => None,
        },
    }
}

// The backup of the label, or else the last one by the target and the timeline.
fn choice_of(set: Option<Label>, deadline: Option<Deadline>, timeline: Option<u32>) -> Choice
    ensures { result ≡ choice_of set deadline timeline }
{
    match set {
        Some(label) => Choice::Labelled(label),
        None => Choice::Last(Bounds { deadline, timeline }),
    }
}

/// Reads the value of the option `set`, where it is given: a backup's label. Then the form of the target is judged.
/// Where no backup is asked for by its label, the last one is chosen that a target of time, a position or the number of
/// a timeline allows.
pub fn restore_order<'a>(
    data_folder: &'a str,
    repository: &'a str,
    set: Option<&'a str>,
    workers: u32,
    delta: bool,
    recovery: RecoveryType<'a>,
) -> Result<RecoverOrder<'a>, Halt<RestoreCommandFault>>
    requires short { length data_folder.now < 2 ^ 16 }
    requires repository_short { length repository.now < 2 ^ 16 }
    ensures folders { IfOk result
        (λ o. (o.data_folder.now ≡ data_folder.now) × (o.repository.now ≡ repository.now)) }
    ensures options { IfOk result (λ o. (o.workers ≡ workers) × (o.delta ≡ delta)) }
    ensures recovery { IfOk result (λ o. recovery_type o.recovery ≡ recovery_type recovery.entry) }
    ensures choice { IfOk result
        (λ o. ShowsChoice (option_map (λ w. w.now) set.entry) (recovery_type recovery.entry) o.choice) }
    ensures cause { IfErr result
        (HaltCause (WordCause (option_map (λ w. w.now) set.entry) (recovery_type recovery.entry)) (λ _. ⊥)) }
{
    let Some(label) = read_set(set) else {
        return Err(Halt::Refused(RestoreCommandFault::SetForm));
    };
    let Some(deadline) = read_target(&recovery) else {
        return Err(Halt::Refused(RestoreCommandFault::TargetForm));
    };
    Ok(RecoverOrder {
        data_folder,
        repository,
        choice: choice_of(label, deadline, number_of(&recovery)),
        workers,
        delta,
        recovery,
    })
}
