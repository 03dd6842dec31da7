// What the devices report besides what they hold.
use crate::devices::Ran;
use crate::world::World;
use memory_devices::MemDisk;
use std::alloc::{AllocError, Global};

#[derive(Clone, Copy)]
pub(crate) enum Look {
    RepoPlace,
    RepoMoment,
    SpoolPlace,
    PgPlace,
    ConfigPlace,
    ServerPlace,
    Sent,
    SentLast,
    OthersTurns,
    OthersStarted,
    Took,
    Refusals,
}

const LOOKS: &[(&str, Look)] = &[
    ("repo.place", Look::RepoPlace),
    ("repo.moment", Look::RepoMoment),
    ("spool.place", Look::SpoolPlace),
    ("pg.place", Look::PgPlace),
    ("config.place", Look::ConfigPlace),
    ("server.place", Look::ServerPlace),
    ("server.sent", Look::Sent),
    ("server.sent.last", Look::SentLast),
    ("others.turns", Look::OthersTurns),
    ("others.started", Look::OthersStarted),
    ("locks.took", Look::Took),
    ("locks.refusals", Look::Refusals),
];

pub(crate) fn look_of(word: &str) -> Option<Look> {
    for (name, look) in LOOKS {
        if *name == word {
            return Some(*look);
        }
    }
    None
}

/// What the device reports.
pub(crate) fn look_at(
    alloc: Global,
    world: &World,
    ran: &Ran,
    what: Look,
) -> Result<Vec<u8>, AllocError> {
    match what {
        Look::RepoPlace | Look::RepoMoment => of_disk(alloc, &world.repo, what),
        Look::SpoolPlace => of_disk(alloc, &world.spool, what),
        Look::PgPlace => match &world.pg {
            Some(pg) => pg.place().as_bytes().to_vec(alloc),
            None => Ok(Vec::new(alloc)),
        },
        Look::ConfigPlace => ran.config.place().as_bytes().to_vec(alloc),
        Look::ServerPlace => ran.server.place().as_bytes().to_vec(alloc),
        Look::Sent | Look::SentLast => ran.server.sent().to_vec(alloc),
        Look::OthersTurns => decimal(alloc, ran.processes.turns()),
        Look::OthersStarted => started(alloc, ran),
        Look::Refusals => decimal(alloc, ran.locks.refusals()),
        Look::Took => ever_taken(alloc, ran),
    }
}

fn of_disk(alloc: Global, disk: &Option<MemDisk>, what: Look) -> Result<Vec<u8>, AllocError> {
    match (disk, what) {
        (Some(disk), Look::RepoMoment) => decimal(alloc, disk.moment()),
        (Some(disk), _) => disk.place().as_bytes().to_vec(alloc),
        (None, _) => Ok(Vec::new(alloc)),
    }
}

// The arguments of each start, a line each.
fn started(alloc: Global, ran: &Ran) -> Result<Vec<u8>, AllocError> {
    let mut text = Vec::new(alloc);
    for words in ran.processes.started() {
        for word in words {
            text.extend_from_slice(word.as_bytes())?;
            text.extend_from_slice(b" ")?;
        }
        text.extend_from_slice(b"\n")?;
    }
    Ok(text)
}

fn decimal(alloc: Global, number: u64) -> Result<Vec<u8>, AllocError> {
    let text = format!(in alloc; "{number}")?;
    text.as_bytes().to_vec(alloc)
}

// The folder and the name of each lock that was taken, a line each.
fn ever_taken(alloc: Global, ran: &Ran) -> Result<Vec<u8>, AllocError> {
    let mut text = Vec::new(alloc);
    for (folder, name) in ran.locks.ever_taken() {
        text.extend_from_slice(folder.as_bytes())?;
        text.push(b' ')?;
        text.extend_from_slice(name.as_bytes())?;
        text.push(b'\n')?;
    }
    Ok(text)
}

/// Shows the first bytes as a line has them.
pub(crate) fn shown(bytes: &[u8], text: &mut String) -> Result<(), AllocError> {
    text.push('"')?;
    for byte in bytes.iter().take(400) {
        match *byte {
            b'\n' => text.push_str("\\n")?,
            b' '..=b'~' => text.push(char::from(*byte))?,
            other => write!(text, "\\x{other:02x}")?,
        }
    }
    text.push('"')
}
