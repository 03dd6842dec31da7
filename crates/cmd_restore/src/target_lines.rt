// The settings of a recovery that say where it ends, a line each.
ghost use Rattle.std.specs.Prelude.{◌≡◌, ◌++◌, ◌∷◌, [], map, string_bytes, IfOk, OnOk};
ghost use Rattle.base_model.specs.Text.{Text};
ghost use Rattle.cmd_restore.specs.Targets.RecoveryEnd.{AtTarget};
ghost use Rattle.cmd_restore.specs.Targets.{target_of, end_of, escaped_byte, escaped, setting, target_name, end_lines, timeline_text, timeline_for, timeline_lines, action_lines, action_of, own_setting, settings_of, lines_in};

use crate::order::{RecoveryEnd, RecoveryTarget, TargetAction, TargetKind, Timeline};
use repo_ini::cut_at;
use std::alloc::{AllocError, Global};

// Adds a byte of a value, twice where the settings' file takes it for something else.
fn add_escaped_byte(line: &mut Vec<u8>, byte: u8) -> Result<(), AllocError>
    ensures { OnOk result (line.new.items ≡ line.old.items ++ escaped_byte byte) }
{
    if byte == b'\'' || byte == b'\\' {
        line.push(byte)?;
    }
    line.push(byte)?;
    Ok(())
}

fn add_escaped(line: &mut Vec<u8>, value: &[u8]) -> Result<(), AllocError>
    ensures { OnOk result (line.new.items ≡ line.old.items ++ escaped value.now) }
{
    for byte in value {
        add_escaped_byte(line, *byte)?;
    }
    Ok(())
}

fn setting(alloc: Global, name: &[u8], value: &[u8]) -> Result<Vec<u8>, AllocError>
    ensures { IfOk result (λ line. line.items ≡ setting name.now value.now) }
{
    let mut line = Vec::new(alloc);
    line.extend_from_slice(name)?;
    line.extend_from_slice(b" = '")?;
    add_escaped(&mut line, value)?;
    line.push(b'\'')?;
    Ok(line)
}

// Adds the line of a setting.
fn add_setting(
    alloc: Global,
    lines: &mut Vec<Vec<u8>>,
    name: &str,
    value: &str,
) -> Result<(), AllocError>
    ensures { OnOk result (lines_in lines.new ≡ lines_in lines.old ++ setting name.now value.now ∷ []) }
{
    lines.push(setting(alloc, name.as_bytes(), value.as_bytes())?)?;
    Ok(())
}

fn target_name(kind: TargetKind) -> &'static str
    ensures { result.now ≡ target_name kind }
{
    match kind {
        TargetKind::Time => "recovery_target_time",
        TargetKind::Position => "recovery_target_lsn",
        TargetKind::Transaction => "recovery_target_xid",
        TargetKind::RestorePoint => "recovery_target_name",
    }
}

// Adds the lines of a target.
fn add_target(
    alloc: Global,
    lines: &mut Vec<Vec<u8>>,
    target: &RecoveryTarget<'_>,
) -> Result<(), AllocError>
    ensures { OnOk result (lines_in lines.new ≡ lines_in lines.old ++ end_lines (AtTarget (target_of target.now))) }
{
    add_setting(alloc, lines, target_name(target.kind), target.text)?;
    if target.exclusive {
        add_setting(alloc, lines, "recovery_target_inclusive", "false")?;
    }
    Ok(())
}

// Adds the lines of where the recovery ends.
fn add_end(alloc: Global, lines: &mut Vec<Vec<u8>>, end: &RecoveryEnd<'_>) -> Result<(), AllocError>
    ensures { OnOk result (lines_in lines.new ≡ lines_in lines.old ++ end_lines (end_of end.now)) }
{
    match end {
        RecoveryEnd::Archive | RecoveryEnd::Standby => Ok(()),
        RecoveryEnd::Consistent(_) => add_setting(alloc, lines, "recovery_target", "immediate"),
        RecoveryEnd::Target(target) => add_target(alloc, lines, target),
    }
}

// The timeline in force.
fn timeline_for(end: &RecoveryEnd<'_>, timeline: Option<Timeline>) -> Option<Timeline>
    ensures { result ≡ timeline_for (end_of end.now) timeline }
{
    if timeline.is_some() {
        return timeline;
    }
    match end {
        RecoveryEnd::Consistent(_) => Some(Timeline::Current),
        RecoveryEnd::Archive | RecoveryEnd::Target(_) | RecoveryEnd::Standby => None,
    }
}

fn timeline_text(alloc: Global, timeline: Timeline) -> Result<String, AllocError>
    ensures { IfOk result (λ text. string_bytes text ≡ timeline_text timeline) }
{
    match timeline {
        Timeline::Current => String::from_str(alloc, "current"),
        Timeline::Latest => String::from_str(alloc, "latest"),
        Timeline::Number(number) => format!(in alloc; "{number}"),
    }
}

// Adds the line of a timeline, where there is one.
fn add_timeline(
    alloc: Global,
    lines: &mut Vec<Vec<u8>>,
    timeline: Option<Timeline>,
) -> Result<(), AllocError>
    ensures { OnOk result (lines_in lines.new ≡ lines_in lines.old ++ timeline_lines timeline) }
{
    let Some(timeline) = timeline else {
        return Ok(());
    };
    let text = timeline_text(alloc, timeline)?;
    add_setting(alloc, lines, "recovery_target_timeline", text.as_str())
}

fn action_of(end: &RecoveryEnd<'_>) -> TargetAction
    ensures { result ≡ action_of (end_of end.now) }
{
    match end {
        RecoveryEnd::Consistent(action) => *action,
        RecoveryEnd::Target(target) => target.action,
        RecoveryEnd::Archive | RecoveryEnd::Standby => TargetAction::Pause,
    }
}

// Adds the line of what the server does then: none where it pauses.
fn add_action(
    alloc: Global,
    lines: &mut Vec<Vec<u8>>,
    action: TargetAction,
) -> Result<(), AllocError>
    ensures { OnOk result (lines_in lines.new ≡ lines_in lines.old ++ action_lines action) }
{
    match action {
        TargetAction::Pause => Ok(()),
        TargetAction::Promote => add_setting(alloc, lines, "recovery_target_action", "promote"),
        TargetAction::Shutdown => add_setting(alloc, lines, "recovery_target_action", "shutdown"),
    }
}

// The line of a setting of one's own.
fn own_setting(alloc: Global, text: &[u8]) -> Result<Vec<u8>, AllocError>
    ensures { IfOk result (λ line. line.items ≡ own_setting text.now) }
{
    match cut_at(b'=', text) {
        Some((name, value)) => setting(alloc, name, value),
        None => setting(alloc, text, b""),
    }
}

// Adds the line of a setting of one's own.
fn add_own_setting(alloc: Global, lines: &mut Vec<Vec<u8>>, text: &[u8]) -> Result<(), AllocError>
    ensures { OnOk result (lines_in lines.new ≡ lines_in lines.old ++ own_setting text.now ∷ []) }
{
    lines.push(own_setting(alloc, text)?)?;
    Ok(())
}

// Adds the lines of the settings of one's own.
fn add_own(alloc: Global, lines: &mut Vec<Vec<u8>>, own: &[String]) -> Result<(), AllocError>
    ensures { OnOk result (lines_in lines.new ≡ lines_in lines.old ++ map own_setting (map string_bytes own.now)) }
{
    for text in own {
        add_own_setting(alloc, lines, text.as_bytes())?;
    }
    Ok(())
}

/// The lines that say where the recovery ends, and those of one's own.
pub(crate) fn settings_of(
    alloc: Global,
    end: &RecoveryEnd<'_>,
    timeline: Option<Timeline>,
    own: &[String],
) -> Result<Vec<Vec<u8>>, AllocError>
    ensures { IfOk result
        (λ lines. lines_in lines ≡ settings_of (end_of end.now) timeline (map string_bytes own.now)) }
{
    let mut lines = Vec::new(alloc);
    add_end(alloc, &mut lines, end)?;
    add_timeline(alloc, &mut lines, timeline_for(end, timeline))?;
    add_action(alloc, &mut lines, action_of(end))?;
    add_own(alloc, &mut lines, own)?;
    Ok(lines)
}
