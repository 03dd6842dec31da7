// What a command is given by its options.
ghost use Rattle.std.specs.Prelude.{◌≡◌, [], true, option_map, string_bytes};
ghost use Rattle.options_read.specs.Commands.{IsCommand};
ghost use Rattle.options_read.specs.Filled.{or_else};
ghost use Rattle.options_read.specs.Settings.{Resolved};
ghost use Rattle.base_model.specs.StanzaName.{is_stanza};
ghost use Rattle.cmd_stanza_create.specs.Server.{server_view};
ghost use Rattle.cmd_trait.specs.Code.{place_of};
ghost use Rattle.cmd_trait.specs.InForce.{place_in};
ghost use Rattle.program_run.specs.Asked.{server_in, rules_in, expires_in, settings_in};
ghost use Rattle.program_run.specs.Given.{IsOffline, IsOnline, IsCreate, IsUpgrade, IsAskedOf};

use backup_plan::PlanSettings;
use cmd_expire::{kind_by, rules_of};
use cmd_stanza_create::Server;
use cmd_trait::Places;
use expire_rules::Rules;
use options_read::Command;
use run_backup::{BackupOffline, BackupOnline};
use run_stanza_create::StanzaCreate;
use run_stanza_upgrade::StanzaUpgrade;

// A path, or nothing.
fn path_of(path: &Option<String>) -> &str
    ensures { result.now ≡ or_else [] (option_map string_bytes path.now) }
{
    match path {
        Some(path) => path.as_str(),
        None => "",
    }
}

/// The places that the command names.
pub(crate) fn places_of(command: &Command) -> Places<'_>
    requires command { (s : Resolved) × IsCommand command.now s }
    requires form { is_stanza (string_bytes command.now.stanza) ≡ true }
    ensures { (s : Resolved) → IsCommand command.now s → place_of result ≡ place_in s }
{
    Places {
        stanza: &command.stanza,
        data_folder: path_of(&command.options.pg1_path),
        repository: &command.options.repo1_path,
        lock_folder: &command.options.lock_path,
    }
}

/// The rules of an expiry.
pub(crate) fn rules(command: &Command) -> Rules
    ensures { (s : Resolved) → IsCommand command.now s → result ≡ rules_in s.source }
{
    rules_of(&command.options)
}

// The expiry that follows a backup, where one does.
fn expires(command: &Command) -> Option<Rules>
    ensures { (s : Resolved) → IsCommand command.now s → result ≡ expires_in s.source }
{
    if command.options.expire_auto {
        return Some(rules(command));
    }
    None
}

// The server that the command asks.
fn server(command: &Command) -> Server<'_>
    requires { (s : Resolved) × IsCommand command.now s }
    ensures { (s : Resolved) → IsCommand command.now s → server_view result ≡ server_in s.source }
{
    Server {
        folder: &command.options.pg1_socket_path,
        port: command.options.pg1_port,
        user: &command.options.pg1_user,
        database: &command.options.pg1_database,
    }
}

// The server that a command asks where it is online.
fn asked_server(command: &Command) -> Option<Server<'_>>
    requires { (s : Resolved) × IsCommand command.now s }
    ensures { (s : Resolved) → IsCommand command.now s → IsAskedOf s.source result }
{
    if command.options.online {
        return Some(server(command));
    }
    None
}

/// stanza-create: where it is online, of a server that is asked.
pub(crate) fn create_of(command: &Command) -> StanzaCreate<'_>
    requires { (s : Resolved) × IsCommand command.now s }
    ensures { (s : Resolved) → IsCommand command.now s → IsCreate s.source result }
{
    StanzaCreate {
        server: asked_server(command),
    }
}

/// stanza-upgrade, in the same way.
pub(crate) fn upgrade_of(command: &Command) -> StanzaUpgrade<'_>
    requires { (s : Resolved) × IsCommand command.now s }
    ensures { (s : Resolved) → IsCommand command.now s → IsUpgrade s.source result }
{
    StanzaUpgrade {
        server: asked_server(command),
    }
}

// How the files of a backup are taken.
fn plan_settings(command: &Command) -> PlanSettings
    ensures { (s : Resolved) → IsCommand command.now s → result ≡ settings_in s.source }
{
    PlanSettings {
        delta: command.options.delta,
        bundle: command.options.repo1_bundle,
        bundle_size: command.options.repo1_bundle_size,
        bundle_limit: command.options.repo1_bundle_limit,
    }
}

/// backup of a stopped server.
pub(crate) fn offline_of(command: &Command) -> BackupOffline
    ensures { (s : Resolved) → IsCommand command.now s → IsOffline s.source result }
{
    BackupOffline {
        workers: command.options.process_max,
        kind: kind_by(command.options.backup_type),
        settings: plan_settings(command),
        expires: expires(command),
    }
}

/// backup of a running server.
pub(crate) fn online_of(command: &Command) -> BackupOnline<'_>
    requires { (s : Resolved) × IsCommand command.now s }
    ensures { (s : Resolved) → IsCommand command.now s → IsOnline s.source result }
{
    BackupOnline {
        server: server(command),
        workers: command.options.process_max,
        kind: kind_by(command.options.backup_type),
        settings: plan_settings(command),
        fast: command.options.start_fast,
        turns: command.options.archive_timeout,
        expires: expires(command),
    }
}
