// The queries of a backup.
ghost use Rattle.std.specs.Prelude.{◌≡◌, ◌≢◌, ◌<◌, length, OnOk, OnErr, IfOk, IfErr};
ghost use Rattle.base_model.specs.ManifestText.{IsSegSize};
ghost use Rattle.server_talk.specs.declared.session.fault.ServerFault.TheVariants as faults;
ghost use Rattle.server_talk.specs.Rows.{Known, SystemOutcome, StartOutcome, StopOutcome, system_query, start_query, stop_query};
ghost use Rattle.server_talk.specs.Sends.{query_of};
ghost use Rattle.server_talk.specs.Views.{session_view, talk_view, stopped_view};
ghost use Rattle.server_talk.specs.Reads.{HasCause};
ghost use Rattle.server_talk.specs.Calls.{SendsAll, GivesSystem, GivesStart, GivesStop};

use crate::session::calls::ask;
use crate::session::fault::ServerFault;
use crate::session::known::{Started, Stopped};
use crate::session::rows::{start_row, stop_row, system_row};
use crate::session::session::Session;
use crate::session::talk::Talk;
use base_devices::ServerConnection;
use repo_names::SegSize;
use std::alloc::Global;

// The size of segments, where the system is the one that is kept.
fn system_of(talk: &Talk, kept: u64) -> Result<SegSize, ServerFault>
    ensures value { Known (λ z. z.0) result (SystemOutcome kept (talk_view talk.now)) }
    ensures sized { IfOk result (λ z. IsSegSize z.0) }
    ensures cause { IfErr result (λ e. e ≢ faults.ServerConnection) }
{
    let Some((found, size)) = system_row(talk) else {
        return Err(ServerFault::ServerForm { at: talk.row_end });
    };
    if found == kept {
        Ok(size)
    } else {
        Err(ServerFault::SystemMismatch { kept, found })
    }
}

/// Asks the server for its system, which is to be the one that is kept, and returns the size of its segments.
pub fn check_system<V: ServerConnection>(
    alloc: Global,
    connection: &mut V,
    session: &mut Session,
    system: u64,
) -> Result<SegSize, ServerFault>
    ensures read { GivesSystem V.state system session.old session.new result connection.old connection.new }
    ensures sized { IfOk result (λ z. IsSegSize z.0) }
    ensures kept { OnErr result (session_view session.new ≡ session_view session.old) }
    ensures sent { OnOk result (SendsAll V.state (query_of system_query) connection.old connection.new) }
    ensures place { (V.state connection.new).place ≡ (V.state connection.old).place }
    ensures cause { HasCause (V.state connection.old).faults (V.state connection.new).faults result }
{
    let text =
        "select system_identifier::text, (select setting from pg_catalog.pg_settings where name = 'wal_segment_size') from pg_catalog.pg_control_system()";
    let talk = match ask(alloc, connection, session, text, 2) {
        Ok(talk) => talk,
        Err(fault) => return Err(fault),
    };
    match system_of(&talk, system) {
        Ok(size) => {
            *session = talk.session;
            Ok(size)
        }
        Err(fault) => Err(fault),
    }
}

fn start_of(talk: &Talk) -> Result<Started, ServerFault>
    ensures value { Known (λ s. s) result (StartOutcome (talk_view talk.now)) }
    ensures cause { IfErr result (λ e. e ≢ faults.ServerConnection) }
{
    match start_row(talk) {
        Some(started) => Ok(started),
        None => Err(ServerFault::ServerForm { at: talk.row_end }),
    }
}

/// Has the server start a backup: with `fast` at once, else after its next checkpoint.
pub fn start_backup<V: ServerConnection>(
    alloc: Global,
    connection: &mut V,
    session: &mut Session,
    fast: bool,
) -> Result<Started, ServerFault>
    ensures read { GivesStart V.state session.old session.new result connection.old connection.new }
    ensures kept { OnErr result (session_view session.new ≡ session_view session.old) }
    ensures sent { OnOk result (SendsAll V.state (query_of (start_query fast)) connection.old connection.new) }
    ensures place { (V.state connection.new).place ≡ (V.state connection.old).place }
    ensures cause { HasCause (V.state connection.old).faults (V.state connection.new).faults result }
{
    let talk = match ask(alloc, connection, session, start_text(fast), 2) {
        Ok(talk) => talk,
        Err(fault) => return Err(fault),
    };
    match start_of(&talk) {
        Ok(started) => {
            *session = talk.session;
            Ok(started)
        }
        Err(fault) => Err(fault),
    }
}

fn start_text(fast: bool) -> &'static str
    ensures value { result.now ≡ start_query fast }
    ensures short { length result.now < 200 }
{
    if fast {
        "select lsn::text, pg_catalog.pg_walfile_name(lsn) from pg_catalog.pg_backup_start('pgBackRest backup', true) as lsn"
    } else {
        "select lsn::text, pg_catalog.pg_walfile_name(lsn) from pg_catalog.pg_backup_start('pgBackRest backup', false) as lsn"
    }
}

fn stop_of(alloc: Global, talk: &Talk) -> Result<Stopped, ServerFault>
    ensures value { Known stopped_view result (StopOutcome (talk_view talk.now)) }
    ensures cause { IfErr result (λ e. e ≢ faults.ServerConnection) }
{
    match stop_row(alloc, talk) {
        Ok(Some(stopped)) => Ok(stopped),
        Ok(None) => Err(ServerFault::ServerForm { at: talk.row_end }),
        Err(_) => Err(ServerFault::NoMemory),
    }
}

/// Has the server stop the backup.
pub fn stop_backup<V: ServerConnection>(
    alloc: Global,
    connection: &mut V,
    session: &mut Session,
) -> Result<Stopped, ServerFault>
    ensures read { GivesStop V.state session.old session.new result connection.old connection.new }
    ensures kept { OnErr result (session_view session.new ≡ session_view session.old) }
    ensures sent { OnOk result (SendsAll V.state (query_of stop_query) connection.old connection.new) }
    ensures place { (V.state connection.new).place ≡ (V.state connection.old).place }
    ensures cause { HasCause (V.state connection.old).faults (V.state connection.new).faults result }
{
    let text =
        "select lsn::text, pg_catalog.pg_walfile_name(lsn), labelfile, spcmapfile from pg_catalog.pg_backup_stop(false)";
    let talk = match ask(alloc, connection, session, text, 4) {
        Ok(talk) => talk,
        Err(fault) => return Err(fault),
    };
    match stop_of(alloc, &talk) {
        Ok(stopped) => {
            *session = talk.session;
            Ok(stopped)
        }
        Err(fault) => Err(fault),
    }
}
