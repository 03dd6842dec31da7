// What to do about a line: docs/STATUS.md has the same advice, in its last column.

// The status, a part of the line where the status has several, and the advice.
const HINTS: &[(&str, &str, &str)] = &[
    ("002", "", "name one; --help lists them"),
    ("003", "", "correct it; --help lists the commands"),
    ("004", "", "correct it; --help COMMAND lists the options"),
    ("005", "", "give it once"),
    (
        "006",
        "",
        "see --help COMMAND for its values, and info for labels; a time is written as 2026-11-30 \
         12:00:00+00",
    ),
    (
        "007",
        "",
        "give it; all but --stanza may stand in the configuration: without --config that is \
         /etc/pgbackrest/pgbackrest.conf alone",
    ),
    ("008", "", "leave it out"),
    ("009", "", "correct the line"),
    ("010", "", "correct the path"),
    (
        "011",
        "",
        "archive-push takes %p, archive-get takes %f and %p, archive-get:async a segment's name, the others \
         none",
    ),
    (
        "012",
        "",
        "hand %p over as the server gives it, and see that pg1-path is its data folder",
    ),
    ("013", "", "convert it"),
    (
        "014",
        "",
        "run it as the user who owns the folder, as by sudo -u postgres",
    ),
    (
        "020",
        "",
        "wait: a server pushes again by itself. If it stays, look for the process that has the lock's file or \
         the stanza's folder open: see RUNBOOK",
    ),
    (
        "021",
        "",
        "see first that the repository's disk is mounted, then that --stanza and repo1-path are right; only \
         a new stanza needs stanza-create",
    ),
    ("022", "", "put a member back from a copy of the repository"),
    (
        "023",
        "",
        "correct pg1-path or --stanza; after pg_upgrade run stanza-upgrade: see RUNBOOK",
    ),
    (
        "024",
        "",
        "put archive.info back from a copy of the repository: see RUNBOOK",
    ),
    (
        "025",
        "",
        "see that pg1-path is right; the cluster is damaged",
    ),
    (
        "026",
        "",
        "see that pg1-path is right; the cluster is damaged",
    ),
    ("027", "", "use another program for this server"),
    ("028", "", "see that pg1-path is the data folder"),
    (
        "029",
        "",
        "see that the right disk is mounted, then put the info files back from a copy of the repository: see \
         RUNBOOK; never remove the files",
    ),
    ("030", "", "hand over what the server gives for %p and %f"),
    (
        "031",
        "",
        "look at the file and its disk; when the server can't archive it, make a new backup after it",
    ),
    (
        "032",
        "WAL header",
        "look at the file and its disk; when the server can't archive it, make a new backup after it",
    ),
    (
        "032",
        "working directory",
        "give this server a configuration of its own by --config or --pg1-path, with its own data folder",
    ),
    (
        "033",
        "",
        "find out how another cluster's file came into pg_wal",
    ),
    (
        "034",
        "",
        "find out whether two servers push into one stanza; never remove the stored file before that",
    ),
    (
        "035",
        "",
        "put the file back from a copy of the repository; without it a recovery can't pass it",
    ),
    (
        "036",
        "",
        "compare both with their sums, and move the wrong one away",
    ),
    ("037", "", "hand over what the server gives for %p"),
    (
        "038",
        "",
        "the server tries again; call archive-push:async by hand, which says why it stores nothing",
    ),
    ("039", "", "see the status in it, 31 to 34"),
    (
        "040",
        "",
        "set the clock right, or wait until it has passed the label",
    ),
    (
        "041",
        "",
        "stop the server; where none runs, remove the file",
    ),
    (
        "042",
        "",
        "see in the server's log whether archive_command works; then back up again, or with a longer \
         --archive-timeout. A turn is a second",
    ),
    ("043", "", "use another program for this server"),
    (
        "044",
        "",
        "replace the link by what it leads to; tablespaces aren't supported",
    ),
    ("045", "name '", "move the file away: no server made it"),
    ("045", "listing", "run it again, and check the file system"),
    ("046", "", "back up again"),
    ("047", "", "correct pg1-path, pg1-port or pg1-socket-path"),
    (
        "048",
        "",
        "see the text; mostly pg1-user or pg1-database isn't there",
    ),
    (
        "049",
        "",
        "let pg_hba.conf have peer or trust for this user on the socket",
    ),
    ("050", "", "see what listens on the socket"),
    ("051", "", "see the server's log, and run it again"),
    (
        "055",
        "",
        "see the system's log, as for a lack of memory or a disk that hangs; try a smaller --process-max",
    ),
    (
        "056",
        "",
        "see who may read the file, and its disk; in a restore run verify, which names the stored file",
    ),
    ("060", "", "see info, --stanza and repo1-path"),
    ("061", "", "info lists the labels"),
    (
        "062",
        "",
        "move what is there away; or save pg_wal first, then give --delta where a PG_VERSION is there",
    ),
    (
        "063",
        "",
        "put the file back from a copy of the repository, or restore another backup by --set",
    ),
    (
        "064",
        "",
        "put a member back from a copy of the repository, or restore another backup by --set; for a backup, \
         make a full one",
    ),
    (
        "065",
        "",
        "put each file back from a copy of the repository; where there is none, make a new backup",
    ),
    ("070", "'server'", "see what listens on the socket"),
    (
        "070",
        "",
        "see what the file is; a cluster with a longer manifest or list is too large for the program",
    ),
    ("071", "more than 4000000", "begin a new repository"),
    (
        "071",
        "",
        "begin a new repository; a cluster of more files is too large for the program. Of the server's \
         messages: see what listens on the socket",
    ),
    ("072", "", "give another --stanza or --repo1-path"),
    (
        "073",
        "",
        "find out what else changes the repository; then expire",
    ),
    ("074", "", "see what the file is"),
    (
        "075",
        "",
        "compare both with their sums, and move the wrong one away",
    ),
    (
        "076",
        "",
        "look up the message of that step; remove what the rehearsal made, which is nothing in the repository \
         where that message is of 29",
    ),
    (
        "080",
        "",
        "mount its disk, make room (see RUNBOOK), or give all files to the server's user, and repeat the \
         command; standard error names the path",
    ),
    (
        "081",
        "",
        "mount its disk, make room, or give all files to the server's user, and repeat the command; standard \
         error names the path",
    ),
    (
        "082",
        "",
        "mount its disk, make room, or give all files to the server's user, and repeat the command; standard \
         error names the path",
    ),
    (
        "083",
        "",
        "start the server, or correct pg1-socket-path and pg1-port",
    ),
    ("084", "", "set the clock right"),
    (
        "085",
        "",
        "the user has to be able to write to lock-path; standard error names the path",
    ),
    (
        "086",
        "",
        "it has to be a plain file that the user may read; standard error names the path",
    ),
    (
        "087",
        "",
        "see where the output goes, and repeat the command",
    ),
    (
        "088",
        "",
        "see the system's limits; try without archive-async",
    ),
    ("090", "", "free some memory, and repeat the command"),
    (
        "101",
        "",
        "put the pairs back from one copy of the repository",
    ),
    (
        "102",
        "",
        "see with info when each backup ended, in UTC; give a later target, or another timeline",
    ),
    (
        "103",
        "",
        "correct the number, which is decimal; or push the file from the server's pg_wal, or name a backup \
         by --set",
    ),
    (
        "104",
        "",
        "put the file back from a copy of the repository or from the server's pg_wal, or name a backup by \
         --set",
    ),
];

/// What to do about an error: none where the line isn't one.
pub fn hint_for(line: &str) -> Option<&'static str> {
    let (status, text) = line.strip_prefix("ERROR: [")?.split_once("]: ")?;
    let found = HINTS.iter().find(|(number, part, _)| *number == status && text.contains(part));
    found.map(|(_, _, hint)| *hint)
}
