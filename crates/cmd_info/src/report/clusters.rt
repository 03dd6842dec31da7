// The lines of a stanza's clusters.
ghost use Rattle.std.specs.Prelude.{◌≡◌, ◌++◌, flat_map, IfOk, OnOk, string_bytes};
ghost use Rattle.cmd_info.specs.Lines.{AddsTexts, texts_of};
ghost use Rattle.cmd_info.specs.ReportText.{shown_clusters, cluster_word, archive_bounds, bounds_line, cluster_lines, history_lines};

use crate::report::bounds::{bounds_of, id_of};
use crate::report::lines::add_line;
use crate::report::report::ArchivedName;
use base_model::ClusterId;
use base_text::{NoMemory, decimal};
use repo_names::segment_text;
use std::alloc::Global;

// Those before the current one, and then that one.
fn shown_clusters(
    alloc: Global,
    current: u32,
    history: &[ClusterId],
) -> Result<Vec<ClusterId>, NoMemory>
    ensures { IfOk result (λ shown. shown.items ≡ shown_clusters current history.now) }
{
    let mut shown = Vec::new(alloc);
    let mut last = Vec::new(alloc);
    for cluster in history {
        if cluster.id == current {
            last.push(*cluster)?;
        } else {
            shown.push(*cluster)?;
        }
    }
    shown.extend_from_slice(&last)?;
    Ok(shown)
}

fn cluster_word(current: bool) -> &'static str
    ensures { result.now ≡ cluster_word current }
{
    if current { "current" } else { "prior" }
}

fn archive_bounds(
    alloc: Global,
    archived: &[ArchivedName],
    cluster: &ClusterId,
) -> Result<String, NoMemory>
    ensures { IfOk result (λ text. string_bytes text ≡ archive_bounds archived.now cluster.now) }
{
    let Some(bounds) = bounds_of(archived, id_of(cluster)) else {
        return Ok("none present".to_string(alloc)?);
    };
    let first = segment_text(alloc, &bounds.first)?;
    let last = segment_text(alloc, &bounds.last)?;
    Ok(format!(in alloc; "{first}/{last}")?)
}

fn bounds_line(
    alloc: Global,
    archived: &[ArchivedName],
    cluster: &ClusterId,
) -> Result<String, NoMemory>
    ensures { IfOk result (λ text. string_bytes text ≡ bounds_line archived.now cluster.now) }
{
    let version = decimal(alloc, u64::from(cluster.version))?;
    let bounds = archive_bounds(alloc, archived, cluster)?;
    Ok(format!(in alloc; "        wal archive min/max ({version}): {bounds}")?)
}

#[tactic(auto, unfolding(crate::specs::ReportText::cluster_lines))]
fn add_cluster(
    alloc: Global,
    lines: &mut Vec<String>,
    current: u32,
    archived: &[ArchivedName],
    cluster: &ClusterId,
) -> Result<(), NoMemory>
    ensures { OnOk result (texts_of lines.new ≡ texts_of lines.old
        ++ cluster_lines current archived.now cluster.now) }
{
    let word = cluster_word(cluster.id == current);
    add_line(lines, String::new(alloc))?;
    add_line(lines, format!(in alloc; "    db ({word})")?)?;
    add_line(lines, bounds_line(alloc, archived, cluster)?)?;
    Ok(())
}

fn add_each(
    alloc: Global,
    lines: &mut Vec<String>,
    current: u32,
    archived: &[ArchivedName],
    clusters: &[ClusterId],
) -> Result<(), NoMemory>
    ensures { OnOk result
        (AddsTexts (flat_map (cluster_lines current archived.now) clusters.now) lines.old lines.new) }
{
    for cluster in clusters {
        add_cluster(alloc, lines, current, archived, cluster)?;
    }
    Ok(())
}

/// Adds the lines of each cluster, the current one last.
pub(crate) fn add_clusters(
    alloc: Global,
    lines: &mut Vec<String>,
    current: u32,
    history: &[ClusterId],
    archived: &[ArchivedName],
) -> Result<(), NoMemory>
    ensures { OnOk result (AddsTexts (history_lines current archived.now history.now) lines.old lines.new) }
{
    let shown = shown_clusters(alloc, current, history)?;
    add_each(alloc, lines, current, archived, &shown)?;
    Ok(())
}
