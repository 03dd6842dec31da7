// What each option is for (pgBackRest configuration reference).
use options_table::Opt;

/// A few words on the option, for the help of a command.
pub fn meaning_of(option: Opt) -> &'static str {
    match option {
        Opt::Stanza => "the stanza: a cluster's part of the repository",
        Opt::Pg1Path => "the cluster's data folder",
        Opt::Pg1Port => "the port in the name of the server's socket",
        Opt::Pg1SocketPath => "the folder of the server's socket",
        Opt::Pg1User => "PostgreSQL user to connect as",
        Opt::Pg1Database => "database to connect to",
        Opt::Repo1Path => "the repository's folder",
        Opt::Repo1RetentionFull => "full backups to keep, as a count or in days",
        Opt::Repo1RetentionFullType => "what this number counts: backups, or days",
        Opt::Repo1RetentionDiff => "how many full and differential backups are kept",
        Opt::Repo1RetentionArchive => "for how many backups the write-ahead log is kept",
        Opt::Repo1RetentionArchiveType => "which backups count for that, with all above them",
        Opt::Repo1Bundle => "whether small files are stored together",
        Opt::Repo1BundleSize => "how much of them is stored together",
        Opt::Repo1BundleLimit => "up to which size a file is a small one",
        Opt::ProcessMax => "how many worker processes read files",
        Opt::BackupType => "what a backup stores: all, or what changed since an earlier one",
        Opt::RestoreType => "how far the server is to recover by the archive",
        Opt::Delta => "whether files are compared by their bytes, and equal ones stay",
        Opt::Online => "whether the server runs, and is asked",
        Opt::StartFast => "whether the server makes its checkpoint at once",
        Opt::ArchiveTimeout => "how long the segments of a backup are waited for, and pushes",
        Opt::ArchiveAsync => "whether background processes push and fetch",
        Opt::ArchiveGetQueueMax => "how much WAL is fetched ahead",
        Opt::SpoolPath => "the folder of what is pushed and fetched that way",
        Opt::LockPath => "the folder of the locks",
        Opt::Set => "label of the backup to restore; default: the latest",
        Opt::Target =>
            "where to stop: a time as 2026-11-30 12:00:00+00, an lsn as 0/3000060, an xid, a name",
        Opt::TargetExclusive => "whether to stop before it",
        Opt::TargetAction => "what to do there",
        Opt::TargetTimeline => "the backup's own timeline, the latest, or the one of this number",
        Opt::RecoveryOption => "a further setting of the server's recovery",
        Opt::ExpireAuto => "whether to expire after a backup",
        Opt::Output => "the report's form",
        Opt::Number => "size: N × 100 files and N × 2 segments of 1 MiB",
        Opt::Config => "the configuration's file",
        Opt::LogLevelStderr =>
            "lines on standard error: none, errors, warnings too, or progress too",
        Opt::LogLevelFile => "lines in the log file, by the same values",
        Opt::LogPath => "folder of the log files, one for each stanza and command",
        Opt::DbTimeout => "how long the server is waited for",
        Opt::IoTimeout => "how long a worker process is waited for",
        _ => "accepted and ignored",
    }
}
