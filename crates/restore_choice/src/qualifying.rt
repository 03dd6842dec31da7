// Whether a recovery can begin with a backup.
ghost use Rattle.std.specs.Prelude.{◌≡◌, Decides, option_map};
ghost use Rattle.std.specs.List.{list_any};
ghost use Rattle.restore_choice.specs.Choosing.{EndedBefore, LogEndsBy, is_within, IsOn, LogFits, needs_log};
ghost use Rattle.restore_choice.specs.Views.{ancestry_of};

use crate::ancestry::Ancestry;
use crate::choice::Deadline;
use base_model::WalPart;
use restore_target::Ancestor;

/// Whether a backup that ended at this second had ended before the deadline, where that is a moment.
pub(crate) fn ended_before(deadline: Option<Deadline>, stop: u64) -> bool
    ensures { Decides result (EndedBefore deadline stop) }
{
    match deadline {
        Some(Deadline::Moment(second)) => stop < second,
        Some(Deadline::Position(_)) | None => true,
    }
}

/// Whether the choice needs to know a backup's part of the log.
pub(crate) fn needs_log(deadline: Option<Deadline>, ancestry: &Option<Ancestry>) -> bool
    ensures { result ≡ needs_log deadline (option_map ancestry_of ancestry.now) }
{
    match deadline {
        Some(Deadline::Position(_)) => true,
        Some(Deadline::Moment(_)) | None => ancestry.is_some(),
    }
}

// Whether the part of the log ends by the deadline, where that is a position.
fn log_ends_by(deadline: Option<Deadline>, log: Option<WalPart>) -> bool
    ensures { Decides result (LogEndsBy deadline log) }
{
    match deadline {
        Some(Deadline::Position(position)) => match log {
            Some(part) => part.to.0 <= position.0,
            None => false,
        },
        Some(Deadline::Moment(_)) | None => true,
    }
}

// Whether the part of the log ends on this timeline before that was left.
fn is_within(part: &WalPart, ancestor: &Ancestor) -> bool
    ensures { result ≡ is_within part.now ancestor.now }
{
    ancestor.timeline == part.span.stop.timeline && part.to.0 <= ancestor.until.0
}

// Whether it does so on one of these timelines.
fn is_on_ancestor(ancestors: &[Ancestor], part: &WalPart) -> bool
    ensures { result ≡ list_any (is_within part.now) ancestors.now }
{
    ancestors.iter().any(|ancestor| is_within(part, ancestor))
}

// Whether the part of the log ends on the timeline that is asked for, or on one that this goes back to.
fn is_on(ancestry: &Option<Ancestry>, log: Option<WalPart>) -> bool
    ensures { Decides result (IsOn (option_map ancestry_of ancestry.now) log) }
{
    let Some(ancestry) = ancestry else {
        return true;
    };
    let Some(part) = log else {
        return false;
    };
    part.span.stop.timeline == ancestry.timeline || is_on_ancestor(&ancestry.ancestors, &part)
}

/// Whether a backup with this part of the log qualifies, as far as that says.
pub(crate) fn log_fits(
    deadline: Option<Deadline>,
    ancestry: &Option<Ancestry>,
    log: Option<WalPart>,
) -> bool
    ensures { Decides result (LogFits deadline (option_map ancestry_of ancestry.now) log) }
{
    log_ends_by(deadline, log) && is_on(ancestry, log)
}
