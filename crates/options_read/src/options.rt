//! The values in force, a field for each option.

ghost use Rattle.std.specs.Prelude.{◌≡◌, map, option_map, string_bytes, IfOk, [], false};
ghost use Rattle.options_read.specs.Settings.{value, argument, stated_all};
ghost use Rattle.options_read.specs.Sources.{source_view};
ghost use Rattle.options_table.specs.Views.{value_view};
ghost use Rattle.options_table.specs.declared.table.Opt.TheVariants.{TargetTimeline, RecoveryOption};
ghost use Rattle.options_read.specs.Filled.{text_in, number_in, amount_in, flag_in, or_else, kind_word, retention_word, restore_word, action_word, timeline_word, timeline_in, output_word, log_word, word_in, is_denied, AreOptions};

use crate::source::{Source, argument, stated_all, value};
use options_table::{Opt, Value};
use std::alloc::{AllocError, Global};

/// A kind of backup.
#[derive(Clone, Copy, Debug, PartialEq, Eq)]
pub enum KindWord {
    Full,
    Diff,
    Incr,
}

/// What the number of full backups to keep counts.
#[derive(Clone, Copy, Debug, PartialEq, Eq)]
pub enum RetentionWord {
    /// Backups.
    Count,
    /// Days.
    Time,
}

/// A kind of restore.
#[derive(Clone, Copy, Debug, PartialEq, Eq)]
pub enum RestoreWord {
    Default,
    /// `none`: no recovery settings are written.
    Plain,
    /// Up to a moment, a position of the write-ahead log, a transaction, or a restore point.
    Time,
    Lsn,
    Xid,
    Name,
    /// As far as the backup needs it.
    Immediate,
    Standby,
}

/// What a server does that has reached its target.
#[derive(Clone, Copy, Debug, PartialEq, Eq)]
pub enum ActionWord {
    Pause,
    Promote,
    Shutdown,
}

/// The timeline along which a server recovers.
#[derive(Clone, Copy, Debug, PartialEq, Eq)]
pub enum TimelineWord {
    /// The one of the backup.
    Current,
    /// The latest in the archive.
    Latest,
    /// The one of this number, which isn't 0.
    Number(u32),
}

/// A form of the report.
#[derive(Clone, Copy, Debug, PartialEq, Eq)]
pub enum OutputWord {
    Text,
    Json,
}

/// What a log has.
#[derive(Clone, Copy, Debug, PartialEq, Eq)]
pub enum LogWord {
    /// `off`, or no value: nothing.
    Nothing,
    /// `error`: what failed, and why.
    Failures,
    /// `warn`: warnings, too.
    Warnings,
    /// `info` and beyond: how far the command is, too.
    Progress,
}

/// The values in force of the options, named as these with `_` for `-`.
///
/// An option without a default is None where no value is in force, or where the command doesn't use it. Any other then
/// has its default. A path or a text has 1 to 1,024 bytes.
#[derive(Debug, Drop)]
pub struct Options {
    /// The data folder.
    pub pg1_path: Option<String>,
    /// 1 to 65535.
    pub pg1_port: u32,
    /// The folder of the server's socket.
    pub pg1_socket_path: String,
    pub pg1_user: String,
    pub pg1_database: String,
    /// Seconds, 1 to 604800.
    pub db_timeout: u64,
    pub repo1_path: String,
    /// 1 to 9999999, backups or days.
    pub repo1_retention_full: Option<u32>,
    pub repo1_retention_full_type: RetentionWord,
    /// 1 to 9999999.
    pub repo1_retention_diff: Option<u32>,
    /// 1 to 9999999.
    pub repo1_retention_archive: Option<u32>,
    pub repo1_retention_archive_type: KindWord,
    pub repo1_bundle: bool,
    /// Bytes, 1 MiB to 1 GiB.
    pub repo1_bundle_size: u64,
    /// Bytes, 8 KiB to 1 GiB.
    pub repo1_bundle_limit: u64,
    /// 1 to 64.
    pub process_max: u32,
    /// Seconds, 1 to 86400.
    pub io_timeout: u64,
    pub backup_type: KindWord,
    pub restore_type: RestoreWord,
    pub delta: bool,
    pub online: bool,
    pub start_fast: bool,
    /// Seconds, 1 to 86400.
    pub archive_timeout: u64,
    pub archive_async: bool,
    /// Bytes, at most 1 TiB.
    pub archive_get_queue_max: u64,
    pub spool_path: String,
    pub lock_path: String,
    /// The label of the backup that is restored; the last one where there is none.
    pub set: Option<String>,
    /// Up to where a server recovers, as it is given: 1 to 1,024 bytes.
    pub target: Option<String>,
    /// Whether it stops before the target.
    pub target_exclusive: bool,
    pub target_action: ActionWord,
    pub target_timeline: Option<TimelineWord>,
    /// Further settings of the recovery, each `NAME=VALUE`, in the order in which they are given.
    pub recovery_options: Vec<String>,
    pub expire_auto: bool,
    pub output: OutputWord,
    /// 1 to 64.
    pub number: Option<u32>,
    /// Where the configuration was said to lie.
    pub config: Option<String>,
    pub log_level_stderr: LogWord,
    pub log_level_file: LogWord,
    /// The folder of the log's files.
    pub log_path: Option<String>,
    /// The data folder that the arguments name, whatever the configuration says.
    pub given_pg1_path: Option<String>,
    /// The repository that the arguments name, whatever the configuration says.
    pub given_repo1_path: Option<String>,
    /// Whether the arguments say that no configuration is read.
    pub no_config: bool,
}

fn as_text(value: Option<Value<'_>>) -> Option<&str>
    ensures { option_map (λ t. t.now) result ≡ text_in (option_map value_view value.entry) }
{
    match value {
        Some(Value::Text(text)) => Some(text),
        _ => None,
    }
}

fn text_in(source: &Source, option: Opt) -> Option<&str>
    ensures { option_map (λ t. t.now) result ≡ text_in (value (source_view source.now) option) }
{
    as_text(value(source, option))
}

fn text(alloc: Global, source: &Source, option: Opt) -> Result<Option<String>, AllocError>
    ensures { IfOk result (λ t. option_map string_bytes t ≡ text_in (value (source_view source.now) option)) }
{
    match text_in(source, option) {
        Some(text) => Ok(Some(String::from_str(alloc, text)?)),
        None => Ok(None),
    }
}

fn text_or_empty(alloc: Global, source: &Source, option: Opt) -> Result<String, AllocError>
    ensures { IfOk result (λ t. string_bytes t ≡ or_else [] (text_in (value (source_view source.now) option))) }
{
    match text_in(source, option) {
        Some(text) => String::from_str(alloc, text),
        None => Ok(String::new(alloc)),
    }
}

fn number(source: &Source, option: Opt) -> Option<u32>
    ensures { result ≡ number_in (value (source_view source.now) option) }
{
    match value(source, option) {
        Some(Value::Number(n)) => Some(n),
        _ => None,
    }
}

fn number_or_zero(source: &Source, option: Opt) -> u32
    ensures { result ≡ or_else 0 (number_in (value (source_view source.now) option)) }
{
    match number(source, option) {
        Some(n) => n,
        None => 0,
    }
}

fn amount(source: &Source, option: Opt) -> u64
    ensures { result ≡ or_else 0 (amount_in (value (source_view source.now) option)) }
{
    match value(source, option) {
        Some(Value::Amount(n)) => n,
        _ => 0,
    }
}

fn flag(source: &Source, option: Opt) -> bool
    ensures { result ≡ or_else false (flag_in (value (source_view source.now) option)) }
{
    match value(source, option) {
        Some(Value::Flag(b)) => b,
        _ => false,
    }
}

fn word(source: &Source, option: Opt) -> &str
    ensures { result.now ≡ word_in (value (source_view source.now) option) }
{
    match text_in(source, option) {
        Some(word) => word,
        None => "",
    }
}

fn kind_word(text: &str) -> KindWord
    ensures { result ≡ kind_word text.now }
{
    if text == "full" {
        return KindWord::Full;
    }
    if text == "diff" {
        return KindWord::Diff;
    }
    KindWord::Incr
}

fn retention_word(text: &str) -> RetentionWord
    ensures { result ≡ retention_word text.now }
{
    if text == "time" {
        RetentionWord::Time
    } else {
        RetentionWord::Count
    }
}

fn restore_word(text: &str) -> RestoreWord
    ensures { result ≡ restore_word text.now }
{
    match text {
        "none" => RestoreWord::Plain,
        "time" => RestoreWord::Time,
        "lsn" => RestoreWord::Lsn,
        "xid" => RestoreWord::Xid,
        "name" => RestoreWord::Name,
        "immediate" => RestoreWord::Immediate,
        "standby" => RestoreWord::Standby,
        _ => RestoreWord::Default,
    }
}

fn action_word(text: &str) -> ActionWord
    ensures { result ≡ action_word text.now }
{
    match text {
        "promote" => ActionWord::Promote,
        "shutdown" => ActionWord::Shutdown,
        _ => ActionWord::Pause,
    }
}

fn timeline_word(text: &str) -> TimelineWord
    ensures { result ≡ timeline_word text.now }
{
    if text == "current" {
        TimelineWord::Current
    } else {
        TimelineWord::Latest
    }
}

fn timeline(source: &Source) -> Option<TimelineWord>
    ensures { result ≡ timeline_in (value (source_view source.now) TargetTimeline) }
{
    match value(source, Opt::TargetTimeline) {
        Some(Value::Number(n)) => Some(TimelineWord::Number(n)),
        Some(Value::Text(word)) => Some(timeline_word(word)),
        _ => None,
    }
}

// All further settings in force.
fn recovery_options(alloc: Global, source: &Source) -> Result<Vec<String>, AllocError>
    ensures { IfOk result (λ v. map string_bytes v.items ≡ stated_all (source_view source.now) RecoveryOption) }
{
    let stated = stated_all(alloc, source, Opt::RecoveryOption)?;
    let mut settings: Vec<String> = Vec::new(alloc);
    for text in &stated {
        settings.push(String::from_str(alloc, *text)?)?;
    }
    Ok(settings)
}

fn output_word(text: &str) -> OutputWord
    ensures { result ≡ output_word text.now }
{
    if text == "json" {
        OutputWord::Json
    } else {
        OutputWord::Text
    }
}

fn log_word(text: &str) -> LogWord
    ensures { result ≡ log_word text.now }
{
    match text {
        "" | "off" => LogWord::Nothing,
        "error" => LogWord::Failures,
        "warn" => LogWord::Warnings,
        _ => LogWord::Progress,
    }
}

// The value that the arguments give an option.
fn given(alloc: Global, source: &Source, option: Opt) -> Result<Option<String>, AllocError>
    ensures { IfOk result (λ t. option_map string_bytes t ≡ argument (source_view source.now) option) }
{
    match argument(source, option) {
        Some(text) => Ok(Some(String::from_str(alloc, text)?)),
        None => Ok(None),
    }
}

fn is_denied(source: &Source, option: Opt) -> bool
    ensures { result ≡ is_denied (argument (source_view source.now) option) }
{
    match argument(source, option) {
        Some(text) => text.is_empty(),
        None => false,
    }
}

// The options, each with its value in force.
pub(crate) fn fill(alloc: Global, source: &Source) -> Result<Options, AllocError>
    ensures { IfOk result (λ o. AreOptions o (source_view source.now)) }
{
    Ok(Options {
        pg1_path: text(alloc, source, Opt::Pg1Path)?,
        pg1_port: number_or_zero(source, Opt::Pg1Port),
        pg1_socket_path: text_or_empty(alloc, source, Opt::Pg1SocketPath)?,
        pg1_user: text_or_empty(alloc, source, Opt::Pg1User)?,
        pg1_database: text_or_empty(alloc, source, Opt::Pg1Database)?,
        db_timeout: amount(source, Opt::DbTimeout),
        repo1_path: text_or_empty(alloc, source, Opt::Repo1Path)?,
        repo1_retention_full: number(source, Opt::Repo1RetentionFull),
        repo1_retention_full_type: retention_word(word(source, Opt::Repo1RetentionFullType)),
        repo1_retention_diff: number(source, Opt::Repo1RetentionDiff),
        repo1_retention_archive: number(source, Opt::Repo1RetentionArchive),
        repo1_retention_archive_type: kind_word(word(source, Opt::Repo1RetentionArchiveType)),
        repo1_bundle: flag(source, Opt::Repo1Bundle),
        repo1_bundle_size: amount(source, Opt::Repo1BundleSize),
        repo1_bundle_limit: amount(source, Opt::Repo1BundleLimit),
        process_max: number_or_zero(source, Opt::ProcessMax),
        io_timeout: amount(source, Opt::IoTimeout),
        backup_type: kind_word(word(source, Opt::BackupType)),
        restore_type: restore_word(word(source, Opt::RestoreType)),
        delta: flag(source, Opt::Delta),
        online: flag(source, Opt::Online),
        start_fast: flag(source, Opt::StartFast),
        archive_timeout: amount(source, Opt::ArchiveTimeout),
        archive_async: flag(source, Opt::ArchiveAsync),
        archive_get_queue_max: amount(source, Opt::ArchiveGetQueueMax),
        spool_path: text_or_empty(alloc, source, Opt::SpoolPath)?,
        lock_path: text_or_empty(alloc, source, Opt::LockPath)?,
        set: text(alloc, source, Opt::Set)?,
        target: text(alloc, source, Opt::Target)?,
        target_exclusive: flag(source, Opt::TargetExclusive),
        target_action: action_word(word(source, Opt::TargetAction)),
        target_timeline: timeline(source),
        recovery_options: recovery_options(alloc, source)?,
        expire_auto: flag(source, Opt::ExpireAuto),
        output: output_word(word(source, Opt::Output)),
        number: number(source, Opt::Number),
        config: text(alloc, source, Opt::Config)?,
        log_level_stderr: log_word(word(source, Opt::LogLevelStderr)),
        log_level_file: log_word(word(source, Opt::LogLevelFile)),
        log_path: text(alloc, source, Opt::LogPath)?,
        given_pg1_path: given(alloc, source, Opt::Pg1Path)?,
        given_repo1_path: given(alloc, source, Opt::Repo1Path)?,
        no_config: is_denied(source, Opt::Config),
    })
}
