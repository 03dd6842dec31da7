// stanza-create: makes the stanza, or keeps the one that is there.
ghost use Rattle.std.specs.Prelude.{◌≡◌, ◌∷◌, [], ◌≤◌, None, OnOk, IfOk, IfErr, IfSome};
ghost use Rattle.base_devices.specs.States.{CallsProperly};
ghost use Rattle.base_disk.specs.Store.{ChangesOnly};
ghost use Rattle.base_model.specs.InfoFiles.{IsLabel};
ghost use Rattle.repo_stanza.specs.Causes.{IfLost};
ghost use Rattle.repo_stanza.specs.Owned.{IsOfPairs};
ghost use Rattle.cmd_types.specs.Plans.{archive_lock, backup_lock};
ghost use Rattle.cmd_stanza_create.specs.Talking.{IsOf, AsksIfAny};
ghost use Rattle.cmd_stanza_create.specs.Creating.{IsStanzaFault, of_server, CreatesStanza, HasCreated, StaysIfRefused, ClosesTalk, StanzaFails, CreateFails};

use crate::fault::CreateFault;
use crate::server::Server;
use crate::server_check::check_server;
use base_devices::{Disk, Locks, ServerConnection};
use cmd_types::{Halt, Object, Outcome};
use repo_names::label_text;
use repo_stanza::{Control, StanzaFault, create};
use server_talk::ServerFault;
use std::alloc::Global;

// How a talk with the server that was refused ends the command.
fn of_server(halt: Halt<ServerFault>) -> Halt<CreateFault>
    ensures { result ≡ of_server halt }
{
    match halt {
        Halt::Refused(fault) => Halt::Refused(CreateFault::Server(fault)),
        Halt::Failed(object) => Halt::Failed(object),
        Halt::NoMemory => Halt::NoMemory,
    }
}

// What a fault of the stanza is.
fn of_stanza(alloc: Global, fault: StanzaFault) -> Halt<CreateFault>
    requires { IfLost fault IsLabel }
    ensures { IsStanzaFault fault result }
{
    match fault {
        StanzaFault::InfoDamaged { name, main, copy } => {
            Halt::Refused(CreateFault::InfoDamaged { name, main, copy })
        }
        StanzaFault::HistoryDiffers { at } => Halt::Refused(CreateFault::HistoryDiffers { at }),
        StanzaFault::StanzaMismatch { kept, found } => {
            Halt::Refused(CreateFault::StanzaMismatch { kept, found })
        }
        StanzaFault::ArchiveLost { label } => match label_text(alloc, &label) {
            Ok(label) => Halt::Refused(CreateFault::ArchiveLost { label }),
            Err(_) => Halt::NoMemory,
        },
        StanzaFault::FilesFound { name } => Halt::Refused(CreateFault::FilesFound { name }),
        StanzaFault::Disk => Halt::Failed(Object::Repo),
        StanzaFault::NoMemory => Halt::NoMemory,
    }
}

// Makes the stanza, or keeps the one that is there.
fn make<D: Disk>(
    alloc: Global,
    repo: &mut D,
    stanza: &str,
    known: &Control,
) -> Result<Outcome, Halt<CreateFault>>
    ensures does { CreatesStanza stanza.now known.now (D.state repo.old) (D.state repo.new) result }
    ensures made { IfOk result (HasCreated stanza.now known.now (D.state repo.old) (D.state repo.new)) }
    ensures refused { StaysIfRefused (D.state repo.old) (D.state repo.new) result }
    ensures only { ChangesOnly (IsOfPairs stanza.now) (D.state repo.old).view (D.state repo.new).view }
    ensures frame { CallsProperly (D.state repo.old) (D.state repo.new) }
    ensures cause { IfErr result (StanzaFails stanza.now known.now (D.state repo.old) (D.state repo.new)) }
{
    match create(alloc, repo, stanza, known) {
        Ok(_) => Ok(Outcome::Finished {
            lines: String::new(alloc),
        }),
        Err(fault) => Err(of_stanza(alloc, fault)),
    }
}

/// Makes the stanza of this cluster, or keeps the one that is there. Where a server is asked, it has to be of the
/// cluster's system. As long as it has the locks nobody can release them.
pub fn create_stanza<D: Disk, V: ServerConnection, K: Locks>(
    alloc: Global,
    repo: &mut D,
    connection: &mut V,
    _locks: &K,
    stanza: &str,
    known: &Control,
    server: Option<Server<'_>>,
) -> Result<Outcome, Halt<CreateFault>>
    requires locked { (K.state _locks.now).taken ≡ archive_lock stanza.now ∷ backup_lock stanza.now ∷ [] }
    ensures does { CreatesStanza stanza.now known.now (D.state repo.old) (D.state repo.new) result }
    ensures made { IfOk result (HasCreated stanza.now known.now (D.state repo.old) (D.state repo.new)) }
    ensures refused { StaysIfRefused (D.state repo.old) (D.state repo.new) result }
    ensures only { ChangesOnly (IsOfPairs stanza.now) (D.state repo.old).view (D.state repo.new).view }
    ensures frame { CallsProperly (D.state repo.old) (D.state repo.new) }

    // The server is asked at its socket, and the talk is ended; without one the connection isn't used.
    ensures same { OnOk result (IfSome server.entry (λ _. IsOf known.now.system (V.state connection.old).pending)) }
    ensures asks { OnOk result (AsksIfAny server.entry (V.state connection.old) (V.state connection.new)) }
    ensures quiet { server.entry ≡ None → connection.new ≡ connection.old }
    ensures closed { IfErr result (ClosesTalk (V.state connection.old) (V.state connection.new)) }
    ensures later { (V.state connection.old).faults ≤ (V.state connection.new).faults }

    ensures cause { IfErr result (CreateFails stanza.now known.now server.entry (D.state repo.old) (D.state repo.new)
        (V.state connection.old) (V.state connection.new)) }
{
    match check_server(alloc, connection, server, known.system) {
        Ok(()) => make(alloc, repo, stanza, known),
        Err(halt) => Err(of_server(halt)),
    }
}
