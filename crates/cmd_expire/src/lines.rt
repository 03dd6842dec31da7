// The lines that say what was removed.
ghost use Rattle.std.specs.Prelude.{◌≡◌, ◌++◌, IfOk, OnOk, string_bytes};
ghost use Rattle.std.specs.List.{AllByRecursion, flat_map};
ghost use Rattle.base_model.specs.InfoFiles.{IsLabel};
ghost use Rattle.cmd_expire.specs.Texts.{label_line, removed_line, lines_of};

use base_model::Label;
use base_text::NoMemory;
use expire_make::Expired;
use repo_names::label_text;
use std::alloc::Global;

fn label_line(alloc: Global, label: &Label) -> Result<String, NoMemory>
    requires { IsLabel label.now }
    ensures { IfOk result (λ line. string_bytes line ≡ label_line label.now) }
{
    let label = label_text(alloc, label)?;
    Ok(format!(in alloc; "INFO: expire backup {label}\n")?)
}

fn removed_line(alloc: Global, removed: u64) -> Result<String, NoMemory>
    ensures { IfOk result (λ line. string_bytes line ≡ removed_line removed) }
{
    if removed == 0 {
        return Ok(String::new(alloc));
    }
    Ok(format!(in alloc; "INFO: removed {removed} archive files\n")?)
}

// A line for each of these labels.
fn label_lines(alloc: Global, labels: &[Label]) -> Result<String, NoMemory>
    requires { AllByRecursion IsLabel labels.now }
    ensures { IfOk result (λ lines. string_bytes lines ≡ flat_map label_line labels.now) }
{
    let mut lines = String::new(alloc);
    for label in labels {
        let line = label_line(alloc, label)?;
        lines.push_str(&line)?;
    }
    Ok(lines)
}

/// The lines that say what was removed: a line for each label, and one for the files of the archive, if there were any.
pub(crate) fn lines_of(alloc: Global, gone: &Expired) -> Result<String, NoMemory>
    requires { AllByRecursion IsLabel gone.now.labels.items }
    ensures { IfOk result (λ lines. string_bytes lines ≡ lines_of gone.now.labels.items gone.now.removed) }
{
    let mut lines = label_lines(alloc, &gone.labels)?;
    let removed = removed_line(alloc, gone.removed)?;
    lines.push_str(&removed)?;
    Ok(lines)
}
