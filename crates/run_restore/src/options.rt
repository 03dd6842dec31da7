// What a restore is asked by its options.
ghost use Rattle.std.specs.Prelude.{◌≡◌, option_map, string_bytes};
ghost use Rattle.cmd_restore.specs.Fetching.{recovery_type, configuration_of, arguments_of};
ghost use Rattle.run_restore.specs.Asking.{configuration_known, fetch_known, action_for, timeline_for, target_for, recovery_to, recovery_for, recovery_known, IsAsked};
ghost use Rattle.cmd_restore.specs.Targets.{end_of};

use crate::restore::Restore;
use cmd_restore::{
    Configuration, FetchArguments, LogRecovery, RecoveryEnd, RecoveryTarget, RecoveryType,
    TargetAction, TargetKind, Timeline,
};
use options_read::{ActionWord, Options, RestoreWord, TimelineWord};

// An argument, where it is given.
fn word_of(word: &Option<String>) -> Option<&str>
    ensures { option_map (λ w. w.now) result ≡ option_map string_bytes word.now }
{
    match word {
        Some(word) => Some(word.as_str()),
        None => None,
    }
}

// The configuration that the options name.
fn configuration_by(options: &Options) -> Configuration<'_>
    ensures { configuration_of result ≡ configuration_known options.now }
{
    if options.no_config {
        return Configuration::Nowhere;
    }
    match &options.config {
        Some(path) => Configuration::Named(path.as_str()),
        None => Configuration::Usual,
    }
}

// The arguments by which the restored server fetches the log.
fn fetch_arguments(options: &Options) -> FetchArguments<'_>
    ensures { arguments_of result ≡ fetch_known options.now }
{
    FetchArguments {
        config: configuration_by(options),
        pg1_path: word_of(&options.given_pg1_path),
        repo1_path: word_of(&options.given_repo1_path),
    }
}

fn action_for(word: ActionWord) -> TargetAction
    ensures { result ≡ action_for word }
{
    match word {
        ActionWord::Pause => TargetAction::Pause,
        ActionWord::Promote => TargetAction::Promote,
        ActionWord::Shutdown => TargetAction::Shutdown,
    }
}

fn timeline_for(word: Option<TimelineWord>) -> Option<Timeline>
    ensures { result ≡ timeline_for word }
{
    match word {
        None => None,
        Some(TimelineWord::Current) => Some(Timeline::Current),
        Some(TimelineWord::Latest) => Some(Timeline::Latest),
        Some(TimelineWord::Number(number)) => Some(Timeline::Number(number)),
    }
}

// A target of this kind, by the options.
fn target_for(options: &Options, kind: TargetKind) -> RecoveryEnd<'_>
    ensures { end_of result ≡ target_for (recovery_known options.now) kind }
{
    let text = match &options.target {
        Some(text) => text.as_str(),
        None => "",
    };
    RecoveryEnd::Target(RecoveryTarget {
        kind,
        text,
        exclusive: options.target_exclusive,
        action: action_for(options.target_action),
    })
}

// A recovery that ends there.
fn recovery_to<'a>(options: &'a Options, end: RecoveryEnd<'a>) -> RecoveryType<'a>
    ensures { recovery_type result ≡ recovery_to (recovery_known options.now) (end_of end.entry) }
{
    RecoveryType::FromArchive(LogRecovery {
        fetch: fetch_arguments(options),
        end,
        timeline: timeline_for(options.target_timeline),
        own: &options.recovery_options,
    })
}

// How the server is to recover.
fn recovery_for(options: &Options) -> RecoveryType<'_>
    ensures { recovery_type result ≡ recovery_for (recovery_known options.now) }
{
    match options.restore_type {
        RestoreWord::Plain => RecoveryType::Nothing,
        RestoreWord::Default => recovery_to(options, RecoveryEnd::Archive),
        RestoreWord::Time => recovery_to(options, target_for(options, TargetKind::Time)),
        RestoreWord::Lsn => recovery_to(options, target_for(options, TargetKind::Position)),
        RestoreWord::Xid => recovery_to(options, target_for(options, TargetKind::Transaction)),
        RestoreWord::Name => recovery_to(options, target_for(options, TargetKind::RestorePoint)),
        RestoreWord::Immediate => {
            let action = action_for(options.target_action);
            recovery_to(options, RecoveryEnd::Consistent(action))
        }
        RestoreWord::Standby => recovery_to(options, RecoveryEnd::Standby),
    }
}

impl<'a> Restore<'a> {
    /// The restore that these options ask for.
    pub fn from_options(options: &'a Options) -> Self
        ensures { IsAsked result options.now }
    {
        Restore {
            set: word_of(&options.set),
            workers: options.process_max,
            delta: options.delta,
            recovery: recovery_for(options),
        }
    }
}
