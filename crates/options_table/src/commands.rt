//! The commands that have an option.

use crate::table::Verb;

pub(crate) const EVERY: &[Verb] = &[
    Verb::StanzaCreate,
    Verb::StanzaUpgrade,
    Verb::ArchivePush,
    Verb::ArchivePushAsync,
    Verb::ArchiveGet,
    Verb::ArchiveGetAsync,
    Verb::Backup,
    Verb::Expire,
    Verb::Restore,
    Verb::Verify,
    Verb::Info,
    Verb::Rehearse,
];

pub(crate) const WITH_DATA_FOLDER: &[Verb] = &[
    Verb::StanzaCreate,
    Verb::StanzaUpgrade,
    Verb::ArchivePush,
    Verb::ArchivePushAsync,
    Verb::ArchiveGet,
    Verb::ArchiveGetAsync,
    Verb::Backup,
    Verb::Restore,
    Verb::Rehearse,
];

pub(crate) const WITH_SERVER: &[Verb] = &[Verb::StanzaCreate, Verb::StanzaUpgrade, Verb::Backup];

pub(crate) const PUSH_AND_BACKUP: &[Verb] = &[
    Verb::ArchivePush,
    Verb::ArchivePushAsync,
    Verb::Backup,
];

pub(crate) const WITH_RETENTION: &[Verb] = &[Verb::Backup, Verb::Expire];

pub(crate) const BACKUP: &[Verb] = &[Verb::Backup];

pub(crate) const WITH_WORKERS: &[Verb] = &[Verb::Backup, Verb::Restore, Verb::Rehearse];

pub(crate) const RESTORE: &[Verb] = &[Verb::Restore];

pub(crate) const BACKUP_AND_RESTORE: &[Verb] = &[Verb::Backup, Verb::Restore];

pub(crate) const PUSH_AND_GET: &[Verb] = &[
    Verb::ArchivePush,
    Verb::ArchivePushAsync,
    Verb::ArchiveGet,
    Verb::ArchiveGetAsync,
];

pub(crate) const GET: &[Verb] = &[Verb::ArchiveGet, Verb::ArchiveGetAsync];

pub(crate) const WITH_SPOOL: &[Verb] = &[
    Verb::ArchivePush,
    Verb::ArchivePushAsync,
    Verb::ArchiveGet,
    Verb::ArchiveGetAsync,
    Verb::Backup,
];

pub(crate) const WITH_LOCK: &[Verb] = &[
    Verb::StanzaCreate,
    Verb::StanzaUpgrade,
    Verb::ArchivePush,
    Verb::ArchivePushAsync,
    Verb::Backup,
    Verb::Expire,
    Verb::Rehearse,
];

pub(crate) const INFO: &[Verb] = &[Verb::Info];

pub(crate) const REHEARSE: &[Verb] = &[Verb::Rehearse];
