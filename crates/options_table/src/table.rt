//! The commands and the options.

ghost use Rattle.std.specs.Prelude.{◌≡◌};
ghost use Rattle.options_table.specs.Table.{verb_word, is_repeatable};
ghost use Rattle.options_table.specs.Views.{kind_view};

/// What is to be done.
#[derive(Clone, Copy, Debug, PartialEq, Eq)]
pub enum Verb {
    StanzaCreate,
    StanzaUpgrade,
    ArchivePush,
    ArchivePushAsync,
    ArchiveGet,
    ArchiveGetAsync,
    Backup,
    Expire,
    Restore,
    Verify,
    Info,
    Rehearse,
}

/// An option. Two commands have an option `type`, each with values of its own.
#[derive(Clone, Copy, Debug, PartialEq, Eq)]
pub enum Opt {
    Stanza,
    Pg1Path,
    Pg1Port,
    Pg1SocketPath,
    Pg1User,
    Pg1Database,
    Repo1Path,
    Repo1Type,
    Repo1CipherType,
    CompressType,
    Repo1RetentionFull,
    Repo1RetentionFullType,
    Repo1RetentionDiff,
    Repo1RetentionArchive,
    Repo1RetentionArchiveType,
    Repo1Bundle,
    Repo1BundleSize,
    Repo1BundleLimit,
    ProcessMax,
    BackupType,
    RestoreType,
    Delta,
    Online,
    StartFast,
    ArchiveTimeout,
    ArchiveAsync,
    ArchiveGetQueueMax,
    SpoolPath,
    LockPath,
    Set,
    ExpireAuto,
    Output,
    Number,
    Config,
    LogLevelConsole,
    LogLevelFile,
    LogLevelStderr,
    LogPath,
    LogTimestamp,
    BufferSize,
    CompressLevel,
    CompressLevelNetwork,
    DbTimeout,
    ProtocolTimeout,
    IoTimeout,
    ArchiveModeCheck,
    Target,
    TargetExclusive,
    TargetAction,
    TargetTimeline,
    RecoveryOption,
}

/// Which values an option takes.
#[derive(Clone, Copy)]
pub enum OptionKind {
    /// 1 to 64 letters, digits, `_` or `-`, and no `-` in front.
    Stanza,
    /// 1 to 1,024 bytes.
    Path,
    /// 1 to 1,024 bytes.
    Text,
    /// Any, which isn't looked at.
    Anything,
    /// A path, or none, as by `--no-config`.
    File,
    Number {
        least: u32,
        most: u32,
    },
    /// In bytes.
    Size {
        least: u64,
        most: u64,
    },
    /// In seconds.
    Time {
        least: u64,
        most: u64,
    },
    /// y or n.
    Flag,
    Words(&'static [&'static str]),
    /// One of the words, or a whole number.
    WordsOr {
        words: &'static [&'static str],
        least: u32,
        most: u32,
    },
    /// `NAME=VALUE`: a setting of the server. At most 1,024 bytes; the name has lower-case letters, digits and `_`, and
    /// is none of a recovery target; the value has no control bytes. An option of this kind may be given more than once.
    Setting,
}

/// The default.
#[derive(Clone, Copy)]
pub enum Fallback {
    /// Then the arguments are refused.
    Required,
    Unset,
    Is(&'static str),
}

/// Where a value may be given.
#[derive(Clone, Copy, PartialEq, Eq)]
pub enum Place {
    CommandLine,
    Anywhere,
}

/// What there is to know of an option.
#[derive(Clone, Copy)]
pub struct Row {
    pub name: &'static str,
    pub commands: &'static [Verb],
    pub place: Place,
    pub kind: OptionKind,
    pub fallback: Fallback,
}

/// All options, in the order in which their faults are reported.
pub const TABLE: [Opt; 51] = [
    Opt::Stanza,
    Opt::Pg1Path,
    Opt::Pg1Port,
    Opt::Pg1SocketPath,
    Opt::Pg1User,
    Opt::Pg1Database,
    Opt::Repo1Path,
    Opt::Repo1Type,
    Opt::Repo1CipherType,
    Opt::CompressType,
    Opt::Repo1RetentionFull,
    Opt::Repo1RetentionFullType,
    Opt::Repo1RetentionDiff,
    Opt::Repo1RetentionArchive,
    Opt::Repo1RetentionArchiveType,
    Opt::Repo1Bundle,
    Opt::Repo1BundleSize,
    Opt::Repo1BundleLimit,
    Opt::ProcessMax,
    Opt::BackupType,
    Opt::RestoreType,
    Opt::Delta,
    Opt::Online,
    Opt::StartFast,
    Opt::ArchiveTimeout,
    Opt::ArchiveAsync,
    Opt::ArchiveGetQueueMax,
    Opt::SpoolPath,
    Opt::LockPath,
    Opt::Set,
    Opt::ExpireAuto,
    Opt::Output,
    Opt::Number,
    Opt::Config,
    Opt::LogLevelConsole,
    Opt::LogLevelFile,
    Opt::LogLevelStderr,
    Opt::LogPath,
    Opt::LogTimestamp,
    Opt::BufferSize,
    Opt::CompressLevel,
    Opt::CompressLevelNetwork,
    Opt::DbTimeout,
    Opt::ProtocolTimeout,
    Opt::IoTimeout,
    Opt::ArchiveModeCheck,
    Opt::Target,
    Opt::TargetExclusive,
    Opt::TargetAction,
    Opt::TargetTimeline,
    Opt::RecoveryOption,
];

/// All commands.
pub const VERBS: [Verb; 12] = [
    Verb::StanzaCreate,
    Verb::StanzaUpgrade,
    Verb::ArchivePush,
    Verb::ArchivePushAsync,
    Verb::ArchiveGet,
    Verb::ArchiveGetAsync,
    Verb::Backup,
    Verb::Expire,
    Verb::Restore,
    Verb::Verify,
    Verb::Info,
    Verb::Rehearse,
];

/// The argument that asks for a command.
pub fn verb_word(verb: Verb) -> &'static str
    ensures { result.now ≡ verb_word verb }
{
    match verb {
        Verb::StanzaCreate => "stanza-create",
        Verb::StanzaUpgrade => "stanza-upgrade",
        Verb::ArchivePush => "archive-push",
        Verb::ArchivePushAsync => "archive-push:async",
        Verb::ArchiveGet => "archive-get",
        Verb::ArchiveGetAsync => "archive-get:async",
        Verb::Backup => "backup",
        Verb::Expire => "expire",
        Verb::Restore => "restore",
        Verb::Verify => "verify",
        Verb::Info => "info",
        Verb::Rehearse => "rehearse",
    }
}

/// Whether an option of this kind may be given more than once.
pub fn is_repeatable(kind: OptionKind) -> bool
    ensures { result ≡ is_repeatable (kind_view kind) }
{
    matches!(kind, OptionKind::Setting)
}
