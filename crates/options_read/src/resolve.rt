//! From arguments and a configuration to a command.

ghost use Rattle.std.specs.Prelude.{◌≡◌, ◌<◌, ◌+◌, ◌^◌, map, string_bytes, length};
ghost use Rattle.repo_ini.specs.Config.{settings};
ghost use Rattle.repo_ini.specs.Views.{settings_of};
ghost use Rattle.options_read.specs.Settings.{resolve, resolved_arguments, syntax_of, configured, accepted};
ghost use Rattle.options_read.specs.Commands.{settled_view, GivesCommand};
ghost use Rattle.options_read.specs.Sources.{source_view};
ghost use Rattle.options_read.specs.Views.{Gives};

use crate::arguments::read_arguments;
use crate::options::{Options, fill};
use crate::rules::{
    command_of, count_of, each_is_for, each_suits, none_lacking, none_twice, none_wrong,
    sections_of, source_of, stanza_of, unknown_keys, utf8_of,
};
use crate::source::Source;
use crate::usage::Usage;
use options_table::{Opt, TABLE, VERBS, Verb};
use repo_ini::{ConfigLine, IniFault, read_config};
use std::alloc::Global;

#[derive(Drop)]
pub(crate) struct Resolved {
    stanza: String,
    parameters: Vec<String>,
    source: Source,
    warnings: Vec<String>,
}

/// What is to be done.
#[derive(Debug, Drop)]
pub struct Command {
    pub verb: Verb,
    /// 1 to 64 letters, digits, `_` or `-`, and no `-` in front.
    pub stanza: String,
    /// The parameters, which come after the command: as many as the command has.
    pub given: Vec<String>,
    pub options: Options,
    /// The keys of the configuration that no option has, in the order in which they are in sections that count.
    pub warnings: Vec<String>,
}

fn lines_of(alloc: Global, config: &[u8]) -> Result<Vec<ConfigLine>, Usage>
    requires { length config.now + 1 < 2 ^ 32 }
    ensures { Gives (λ v. settings_of v.items) result (syntax_of (settings config.now)) }
{
    match read_config(alloc, config) {
        Ok(lines) => Ok(lines),
        Err(IniFault::NoMemory) => Err(Usage::NoMemory),
        Err(IniFault::Syntax { line }) => Err(Usage::ConfigSyntax { line }),
        // a configuration has no sum
        Err(IniFault::Sum { known: _, found: _ }) => unreachable!(),
    }
}

// What is set, where its form is right and no key occurs twice in a section.
#[tactic(auto, unfolding(crate::specs::Settings::configured))]
fn configured(alloc: Global, table: &[Opt], config: &[u8]) -> Result<Vec<ConfigLine>, Usage>
    requires { length config.now + 1 < 2 ^ 32 }
    ensures { Gives (λ v. settings_of v.items) result (configured table.now config.now) }
{
    utf8_of(config)?;
    let lines = lines_of(alloc, config)?;
    none_twice(alloc, table, &lines)?;
    Ok(lines)
}

// Whether the values in force are right, and as many parameters as there are.
#[tactic(auto, unfolding(crate::specs::Settings::accepted))]
fn accept(alloc: Global, source: &Source, table: &[Opt], count: usize) -> Result<(), Usage>
    ensures { Gives (λ u. u) result (accepted (source_view source.now) table.now count) }
{
    none_wrong(alloc, source, table)?;
    none_lacking(alloc, source, table)?;
    each_suits(alloc, source, table)?;
    count_of(source.verb, count)
}

#[tactic(auto, unfolding(crate::specs::Settings::resolve))]
pub(crate) fn resolve(
    alloc: Global,
    verbs: &[Verb],
    table: &[Opt],
    arguments: &[String],
    config: &[u8],
) -> Result<Resolved, Usage>
    requires { length config.now + 1 < 2 ^ 32 }
    ensures { Gives settled_view result (resolve verbs.now table.now (map string_bytes arguments.now) config.now) }
{
    let read = read_arguments(alloc, table, arguments)?;
    let verb = command_of(alloc, verbs, &read.command)?;
    each_is_for(alloc, table, verb, &read.given)?;
    let stanza = stanza_of(alloc, &read.given)?;
    let lines = configured(alloc, table, config)?;
    let sections = sections_of(alloc, stanza.as_str(), verb)?;
    let warnings = unknown_keys(alloc, table, &sections, &lines)?;
    let source = source_of(table, verb, read.given, sections, lines);
    accept(alloc, &source, table, read.parameters.len())?;
    Ok(Resolved {
        stanza,
        parameters: read.parameters,
        source,
        warnings,
    })
}

/// The command that the arguments of a command line and the bytes of a configuration ask for.
///
/// Else the first fault. It is looked for in this order: the arguments from left to right, the command, its options,
/// the stanza. Then come the configuration's form, a key that occurs twice in a section of it, the values in force,
/// options without a value, options of another type of restore, the parameters.
#[tactic(auto, unfolding(crate::specs::Settings::resolved_arguments))]
pub fn resolve_arguments(
    alloc: Global,
    arguments: &[String],
    config: &[u8],
) -> Result<Command, Usage>
    requires { length config.now + 1 < 2 ^ 32 }
    ensures { GivesCommand result (resolved_arguments (map string_bytes arguments.now) config.now) }
{
    let settled = resolve(alloc, &VERBS, &TABLE, arguments, config)?;
    let options = fill(alloc, &settled.source)?;
    Ok(Command {
        verb: settled.source.verb,
        stanza: settled.stanza,
        given: settled.parameters,
        options,
        warnings: settled.warnings,
    })
}
