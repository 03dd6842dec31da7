//! The rows of the options, as the table of them.

ghost use Rattle.std.specs.Prelude.{◌≡◌, map};
ghost use Rattle.options_table.specs.Table.{row, option, word_option, every, unset, IsOfServer, IsOfRepository, IsOfRetention, IsOfBundle, IsOfRun, IsOfArchive, IsOfCommand, IsOfTarget, IsIgnored, types_of};
ghost use Rattle.options_table.specs.Views.{row_view, kind_view, fallback_view};

use crate::commands::{
    BACKUP, BACKUP_AND_RESTORE, EVERY, GET, INFO, PUSH_AND_BACKUP, PUSH_AND_GET, REHEARSE, RESTORE,
    WITH_DATA_FOLDER, WITH_LOCK, WITH_RETENTION, WITH_SERVER, WITH_SPOOL, WITH_WORKERS,
};
use crate::table::{Fallback, Opt, OptionKind, Place, Row, Verb};

const LOG_LEVELS: &[&str] = &["off", "error", "warn", "info", "detail", "debug", "trace"];

// The types of a restore after which the server recovers by the archive.
const RECOVERING: &[&str] = &[
    "default",
    "immediate",
    "standby",
    "time",
    "lsn",
    "xid",
    "name",
];

// An option that may be in the arguments and in the configuration.
fn any_place(
    name: &'static str,
    commands: &'static [Verb],
    kind: OptionKind,
    fallback: Fallback,
) -> Row
    ensures { row_view result ≡ option name.now commands.now (kind_view kind) (fallback_view fallback) }
{
    Row {
        name,
        commands,
        place: Place::Anywhere,
        kind,
        fallback,
    }
}

// One that may be in the arguments alone.
fn only_arguments(name: &'static str, kind: OptionKind, fallback: Fallback) -> Row
    ensures { row_view result ≡ word_option name.now every (kind_view kind) (fallback_view fallback) }
{
    Row {
        name,
        commands: EVERY,
        place: Place::CommandLine,
        kind,
        fallback,
    }
}

// One whose value isn't looked at.
fn ignored(name: &'static str, kind: OptionKind) -> Row
    ensures { row_view result ≡ option name.now every (kind_view kind) unset }
{
    any_place(name, EVERY, kind, Fallback::Unset)
}

// Of the stanza and its server.
#[tactic(auto, unfolding(crate::specs::Table::row))]
fn server_row(option: Opt) -> Row
    requires { IsOfServer option }
    ensures { row_view result ≡ row option }
{
    match option {
        Opt::Stanza => only_arguments("stanza", OptionKind::Stanza, Fallback::Required),
        Opt::Pg1Path => any_place(
            "pg1-path",
            WITH_DATA_FOLDER,
            OptionKind::Path,
            Fallback::Required,
        ),
        Opt::Pg1Port => any_place(
            "pg1-port",
            WITH_SERVER,
            OptionKind::Number {
                least: 1,
                most: 65535,
            },
            Fallback::Is("5432"),
        ),
        Opt::Pg1SocketPath => any_place(
            "pg1-socket-path",
            WITH_SERVER,
            OptionKind::Path,
            Fallback::Is("/tmp"),
        ),
        Opt::Pg1User => any_place(
            "pg1-user",
            WITH_SERVER,
            OptionKind::Text,
            Fallback::Is("postgres"),
        ),
        Opt::Pg1Database => any_place(
            "pg1-database",
            WITH_SERVER,
            OptionKind::Text,
            Fallback::Is("postgres"),
        ),
        // DbTimeout, the one that is left.
        _ => any_place(
            "db-timeout",
            EVERY,
            OptionKind::Time {
                least: 1,
                most: 604800,
            },
            Fallback::Is("1800"),
        ),
    }
}

// Of the repository and how its files are stored.
#[tactic(auto, unfolding(crate::specs::Table::row))]
fn repository_row(option: Opt) -> Row
    requires { IsOfRepository option }
    ensures { row_view result ≡ row option }
{
    match option {
        Opt::Repo1Path => any_place(
            "repo1-path",
            EVERY,
            OptionKind::Path,
            Fallback::Is("/var/lib/pgbackrest"),
        ),
        Opt::Repo1Type => any_place(
            "repo1-type",
            EVERY,
            OptionKind::Words(&["posix"]),
            Fallback::Is("posix"),
        ),
        Opt::Repo1CipherType => any_place(
            "repo1-cipher-type",
            EVERY,
            OptionKind::Words(&["none"]),
            Fallback::Is("none"),
        ),
        // CompressType, the one that is left.
        _ => any_place(
            "compress-type",
            PUSH_AND_BACKUP,
            OptionKind::Words(&["none"]),
            Fallback::Is("none"),
        ),
    }
}

// Of what expire keeps.
#[tactic(auto, unfolding(crate::specs::Table::row))]
fn retention_row(option: Opt) -> Row
    requires { IsOfRetention option }
    ensures { row_view result ≡ row option }
{
    match option {
        Opt::Repo1RetentionFull => any_place(
            "repo1-retention-full",
            WITH_RETENTION,
            OptionKind::Number {
                least: 1,
                most: 9999999,
            },
            Fallback::Unset,
        ),
        Opt::Repo1RetentionFullType => any_place(
            "repo1-retention-full-type",
            WITH_RETENTION,
            OptionKind::Words(&["count", "time"]),
            Fallback::Is("count"),
        ),
        Opt::Repo1RetentionDiff => any_place(
            "repo1-retention-diff",
            WITH_RETENTION,
            OptionKind::Number {
                least: 1,
                most: 9999999,
            },
            Fallback::Unset,
        ),
        Opt::Repo1RetentionArchive => any_place(
            "repo1-retention-archive",
            WITH_RETENTION,
            OptionKind::Number {
                least: 1,
                most: 9999999,
            },
            Fallback::Unset,
        ),
        // Repo1RetentionArchiveType, the one that is left.
        _ => any_place(
            "repo1-retention-archive-type",
            WITH_RETENTION,
            OptionKind::Words(&["full", "diff", "incr"]),
            Fallback::Is("full"),
        ),
    }
}

// Of bundles.
#[tactic(auto, unfolding(crate::specs::Table::row))]
fn bundle_row(option: Opt) -> Row
    requires { IsOfBundle option }
    ensures { row_view result ≡ row option }
{
    match option {
        Opt::Repo1Bundle => any_place("repo1-bundle", BACKUP, OptionKind::Flag, Fallback::Is("n")),
        Opt::Repo1BundleSize => any_place(
            "repo1-bundle-size",
            BACKUP,
            OptionKind::Size {
                least: 1048576,
                most: 1073741824,
            },
            Fallback::Is("20MiB"),
        ),
        // Repo1BundleLimit, the one that is left.
        _ => any_place(
            "repo1-bundle-limit",
            BACKUP,
            OptionKind::Size {
                least: 8192,
                most: 1073741824,
            },
            Fallback::Is("2MiB"),
        ),
    }
}

// Of how a backup or a restore is run.
#[tactic(auto, unfolding(crate::specs::Table::row))]
fn run_row(option: Opt) -> Row
    requires { IsOfRun option }
    ensures { row_view result ≡ row option }
{
    match option {
        Opt::ProcessMax => any_place(
            "process-max",
            WITH_WORKERS,
            OptionKind::Number { least: 1, most: 64 },
            Fallback::Is("1"),
        ),
        Opt::IoTimeout => any_place(
            "io-timeout",
            EVERY,
            OptionKind::Time {
                least: 1,
                most: 86400,
            },
            Fallback::Is("1800"),
        ),
        Opt::BackupType => any_place(
            "type",
            BACKUP,
            OptionKind::Words(&["full", "diff", "incr"]),
            Fallback::Is("incr"),
        ),
        Opt::RestoreType => any_place(
            "type",
            RESTORE,
            OptionKind::Words(&[
                "default",
                "none",
                "time",
                "lsn",
                "xid",
                "name",
                "immediate",
                "standby",
            ]),
            Fallback::Is("default"),
        ),
        Opt::Delta => any_place(
            "delta",
            BACKUP_AND_RESTORE,
            OptionKind::Flag,
            Fallback::Is("n"),
        ),
        Opt::Online => any_place("online", WITH_SERVER, OptionKind::Flag, Fallback::Is("y")),
        // StartFast, the one that is left.
        _ => any_place("start-fast", BACKUP, OptionKind::Flag, Fallback::Is("n")),
    }
}

// Of the archive, and the folders that it works in.
#[tactic(auto, unfolding(crate::specs::Table::row))]
fn archive_row(option: Opt) -> Row
    requires { IsOfArchive option }
    ensures { row_view result ≡ row option }
{
    match option {
        Opt::ArchiveTimeout => any_place(
            "archive-timeout",
            PUSH_AND_BACKUP,
            OptionKind::Time {
                least: 1,
                most: 86400,
            },
            Fallback::Is("60"),
        ),
        Opt::ArchiveAsync => any_place(
            "archive-async",
            PUSH_AND_GET,
            OptionKind::Flag,
            Fallback::Is("n"),
        ),
        Opt::ArchiveGetQueueMax => any_place(
            "archive-get-queue-max",
            GET,
            OptionKind::Size {
                least: 0,
                most: 1099511627776,
            },
            Fallback::Is("128MiB"),
        ),
        Opt::SpoolPath => any_place(
            "spool-path",
            WITH_SPOOL,
            OptionKind::Path,
            Fallback::Is("/var/spool/pgbackrest"),
        ),
        // LockPath, the one that is left.
        _ => any_place(
            "lock-path",
            WITH_LOCK,
            OptionKind::Path,
            Fallback::Is("/tmp/pgbackrest"),
        ),
    }
}

// Of one command, the configuration, and the log.
#[tactic(auto, unfolding(crate::specs::Table::row))]
fn command_row(option: Opt) -> Row
    requires { IsOfCommand option }
    ensures { row_view result ≡ row option }
{
    match option {
        Opt::Set => any_place("set", RESTORE, OptionKind::Text, Fallback::Unset),
        Opt::ExpireAuto => any_place("expire-auto", BACKUP, OptionKind::Flag, Fallback::Is("y")),
        Opt::Output => any_place(
            "output",
            INFO,
            OptionKind::Words(&["text", "json"]),
            Fallback::Is("text"),
        ),
        Opt::Number => any_place(
            "number",
            REHEARSE,
            OptionKind::Number { least: 1, most: 64 },
            Fallback::Required,
        ),
        Opt::LogLevelStderr => any_place(
            "log-level-stderr",
            EVERY,
            OptionKind::Words(LOG_LEVELS),
            Fallback::Unset,
        ),
        Opt::LogLevelFile => any_place(
            "log-level-file",
            EVERY,
            OptionKind::Words(LOG_LEVELS),
            Fallback::Unset,
        ),
        Opt::LogPath => any_place("log-path", EVERY, OptionKind::Path, Fallback::Unset),
        // Config, the one that is left.
        _ => only_arguments("config", OptionKind::File, Fallback::Unset),
    }
}

// Of how far a recovery goes.
#[tactic(auto, unfolding(crate::specs::Table::row))]
fn target_row(option: Opt) -> Row
    requires { IsOfTarget option }
    ensures { row_view result ≡ row option }
{
    match option {
        Opt::Target => any_place("target", RESTORE, OptionKind::Text, Fallback::Required),
        Opt::TargetExclusive => any_place(
            "target-exclusive",
            RESTORE,
            OptionKind::Flag,
            Fallback::Is("n"),
        ),
        Opt::TargetAction => any_place(
            "target-action",
            RESTORE,
            OptionKind::Words(&["pause", "promote", "shutdown"]),
            Fallback::Is("pause"),
        ),
        Opt::TargetTimeline => any_place(
            "target-timeline",
            RESTORE,
            OptionKind::WordsOr {
                words: &["current", "latest"],
                least: 1,
                most: 4294967295,
            },
            Fallback::Unset,
        ),
        // RecoveryOption, the one that is left.
        _ => any_place(
            "recovery-option",
            RESTORE,
            OptionKind::Setting,
            Fallback::Unset,
        ),
    }
}

// Of what is not looked at.
#[tactic(auto, unfolding(crate::specs::Table::row))]
fn ignored_row(option: Opt) -> Row
    requires { IsIgnored option }
    ensures { row_view result ≡ row option }
{
    match option {
        Opt::LogLevelConsole => ignored("log-level-console", OptionKind::Anything),
        Opt::LogTimestamp => ignored("log-timestamp", OptionKind::Flag),
        Opt::BufferSize => ignored("buffer-size", OptionKind::Anything),
        Opt::CompressLevel => ignored("compress-level", OptionKind::Anything),
        Opt::CompressLevelNetwork => ignored("compress-level-network", OptionKind::Anything),
        Opt::ProtocolTimeout => ignored("protocol-timeout", OptionKind::Anything),
        // ArchiveModeCheck, the one that is left.
        _ => ignored("archive-mode-check", OptionKind::Flag),
    }
}

/// The row of an option.
#[tactic(auto)]
pub fn row_for(option: Opt) -> Row
    ensures { row_view result ≡ row option }
{
    match option {
        Opt::Stanza
        | Opt::Pg1Path
        | Opt::Pg1Port
        | Opt::Pg1SocketPath
        | Opt::Pg1User
        | Opt::Pg1Database
        | Opt::DbTimeout => server_row(option),
        Opt::Repo1Path | Opt::Repo1Type | Opt::Repo1CipherType | Opt::CompressType =>
            repository_row(option),
        Opt::Repo1RetentionFull
        | Opt::Repo1RetentionFullType
        | Opt::Repo1RetentionDiff
        | Opt::Repo1RetentionArchive
        | Opt::Repo1RetentionArchiveType => retention_row(option),
        Opt::Repo1Bundle | Opt::Repo1BundleSize | Opt::Repo1BundleLimit => bundle_row(option),
        Opt::ProcessMax
        | Opt::IoTimeout
        | Opt::BackupType
        | Opt::RestoreType
        | Opt::Delta
        | Opt::Online
        | Opt::StartFast => run_row(option),
        Opt::ArchiveTimeout
        | Opt::ArchiveAsync
        | Opt::ArchiveGetQueueMax
        | Opt::SpoolPath
        | Opt::LockPath => archive_row(option),
        Opt::Set
        | Opt::ExpireAuto
        | Opt::Output
        | Opt::Number
        | Opt::Config
        | Opt::LogLevelStderr
        | Opt::LogLevelFile
        | Opt::LogPath => command_row(option),
        Opt::LogLevelConsole
        | Opt::LogTimestamp
        | Opt::BufferSize
        | Opt::CompressLevel
        | Opt::CompressLevelNetwork
        | Opt::ProtocolTimeout
        | Opt::ArchiveModeCheck => ignored_row(option),
        Opt::Target
        | Opt::TargetExclusive
        | Opt::TargetAction
        | Opt::TargetTimeline
        | Opt::RecoveryOption => target_row(option),
    }
}

/// The types of a restore that use an option; none where it isn't bound to any.
pub fn types_of(option: Opt) -> &'static [&'static str]
    ensures { map (λ t. t.now) result.now ≡ types_of option }
{
    match option {
        Opt::Target => &["time", "lsn", "xid", "name"],
        Opt::TargetExclusive => &["time", "lsn", "xid"],
        Opt::TargetAction => &["time", "lsn", "xid", "name", "immediate"],
        Opt::TargetTimeline | Opt::RecoveryOption => RECOVERING,
        _ => &[],
    }
}
