// The line that says how the stanza came to be of the cluster.
ghost use Rattle.std.specs.Prelude.{◌≡◌, IfOk, string_bytes};
ghost use Rattle.cmd_stanza_upgrade.specs.Texts.{line_of};

use repo_stanza::Upgraded;
use std::alloc::{AllocError, Global};

/// The line of a cluster that was added, with the id of its log, or of one that was the current one.
pub(crate) fn line_of(
    alloc: Global,
    stanza: &str,
    version: u32,
    upgraded: Upgraded,
) -> Result<String, AllocError>
    ensures { IfOk result (λ line. string_bytes line ≡ line_of stanza.now version upgraded) }
{
    match upgraded {
        Upgraded::New { number } => {
            format!(in alloc; "INFO: stanza '{stanza}' upgraded to {version}-{number}\n")
        }
        Upgraded::Same => format!(in alloc; "INFO: stanza '{stanza}' is already up to date\n"),
    }
}
