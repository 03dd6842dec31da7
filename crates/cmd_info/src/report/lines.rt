// Lines of a text.
ghost use Rattle.std.specs.Prelude.{◌≡◌, ◌++◌, [], ◌∷◌, map, IfOk, OnOk, string_bytes};
ghost use Rattle.cmd_info.specs.Lines.{texts_of, text_of_lines};

use base_text::NoMemory;
use std::alloc::Global;

/// Adds a line after the others.
pub(crate) fn add_line(lines: &mut Vec<String>, line: String) -> Result<(), NoMemory>
    ensures { OnOk result (texts_of lines.new ≡ texts_of lines.old ++ string_bytes line ∷ []) }
{
    lines.push(line)?;
    Ok(())
}

/// The text of these lines, each with a newline.
#[tactic(auto, unfolding(crate::specs::Lines::text_of_lines))]
pub(crate) fn text_of_lines(alloc: Global, lines: &[String]) -> Result<String, NoMemory>
    ensures { IfOk result (λ text. string_bytes text ≡ text_of_lines (map string_bytes lines.now)) }
{
    let mut text = String::new(alloc);
    for line in lines {
        text.push_str(line)?;
        text.push_str("\n")?;
    }
    Ok(text)
}
