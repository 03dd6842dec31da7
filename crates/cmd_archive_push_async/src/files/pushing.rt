// Pushes one file of the log.
ghost use Rattle.std.specs.Prelude.{IfOk, IfErr};
ghost use Rattle.base_devices.specs.States.{CallsProperly, OnlyReadsFolder};
ghost use Rattle.base_text.specs.Sum.{IsSum};
ghost use Rattle.base_model.specs.Names.{wal_text};
ghost use Rattle.base_model.specs.Represents.{IsArchivePlace};
ghost use Rattle.archive_lookup.specs.Stored.{ChangesArchive};
ghost use Rattle.cmd_archive_push.specs.LogFile.{IsOpened};
ghost use Rattle.cmd_archive_push.specs.WalPath.{wal_path};
ghost use Rattle.cmd_archive_push_async.specs.Paired.{KeepsPair};
ghost use Rattle.cmd_archive_push_async.specs.Pushing.{IsHaltedBy};
ghost use Rattle.cmd_archive_push_async.specs.Between.{PutsSome, ShowsSumOf, GoesByPush, PutsLog, HasFate, PushStops};

use crate::files::target::Target;
use archive_store::push_from;
use base_devices::{DataFolder, Disk};
use base_model::ArchiveName;
use base_text::Sum;
use cmd_archive_push::{LogFile, PushFault, content_text, of_store};
use cmd_types::Halt;
use std::alloc::Global;

/// The result of a push: the file was stored with this sum, or refused for its content, with this line.
#[derive(Drop)]
pub(crate) enum Tried {
    Stored(Sum),
    Refused(PushFault, String),
}

// A file that is refused for its content is passed over; every other end is that of the drain.
fn refused(alloc: Global, halt: Halt<PushFault>) -> Result<Tried, Halt<PushFault>>
    ensures { IsHaltedBy halt result }
{
    match halt {
        Halt::Refused(fault) => match content_text(alloc, &fault) {
            Ok(Some(line)) => Ok(Tried::Refused(fault, line)),
            Ok(None) => Err(Halt::Refused(fault)),
            Err(_) => Err(Halt::NoMemory),
        },
        Halt::Failed(object) => Err(Halt::Failed(object)),
        Halt::NoMemory => Err(Halt::NoMemory),
    }
}

/// Pushes a file of the log that was opened.
pub(crate) fn push_log<D: Disk, T: DataFolder>(
    alloc: Global,
    repo: &mut D,
    tree: &mut T,
    to: &Target<'_>,
    name: ArchiveName,
    log: &LogFile,
) -> Result<Tried, Halt<PushFault>>
    requires opened { IsOpened (T.state tree.old).nodes (wal_path (wal_text name)) log.now }
    ensures goes { GoesByPush D.state T.state to.now name result repo.old repo.new tree.old }
    ensures puts { PutsLog D.state T.state to.now name result repo.old repo.new tree.old }
    ensures sum { IfOk result (ShowsSumOf name (T.state tree.old)) }
    ensures fate { IfOk result (HasFate D.state T.state to.now name repo.old tree.old) }
    ensures puts_only { PutsSome to.now.stanza.now to.now.id (D.state repo.old) (D.state repo.new) }
    ensures pair { KeepsPair to.now.stanza.now (D.state repo.old).view (D.state repo.new).view }
    ensures only { ChangesArchive to.now.stanza.now (D.state repo.old).view (D.state repo.new).view }
    ensures frame { CallsProperly (D.state repo.old) (D.state repo.new) }
    ensures looks { OnlyReadsFolder (T.state tree.old) (T.state tree.new) }
    ensures cause { IfErr result (PushStops D.state T.state to.now name repo.old repo.new tree.old tree.new) }
{
    let id = to.id;
    match push_from(
        alloc,
        repo,
        tree,
        to.stanza,
        &id,
        &name,
        to.system,
        log,
        log.prefix(),
    ) {
        Ok((_, sum)) => Ok(Tried::Stored(sum)),
        Err(fault) => refused(alloc, of_store(fault)),
    }
}
