//! Texts that are no info texts, with their checksums by `sha1sum` of the JSON texts that the rule names.

use crate::same::{same, same_of};
use crate::texts::{ARCHIVE, read};
use base_model::{ArchiveInfo, BackupInfo};
use base_text::{NoMemory, Sum};
use repo_info::{MemberFault, ReadInfo};
use std::alloc::Global;
use std::process::Abort;
use std::test::Fail;

// The sections of a text, its checksum, and the section and the key at which they break the rules.
type Misfit = (&'static str, &'static str, &'static str, &'static str);

const MISFITS: &[Misfit] = &[
    (
        "",
        "a3765a8c2c1e5d35274a0b0ce118f4031faff0bd",
        "db",
        "db-id",
    ),
    (
        "[db:history]\n1={\"db-id\":7,\"db-version\":\"16\"}\n\n",
        "d015d858e3f0cd296b36b012f4bc2886d5423ace",
        "db",
        "db-id",
    ),
    (
        "[db]\ndb-id=1\ndb-system-id=7\ndb-version=\"16\"\n\n",
        "60c38adaac2ae9b690cb0cc812441d0ef1ea3e43",
        "db:history",
        "1",
    ),
    (
        "[db]\ndb-id=\"1\"\ndb-system-id=7\ndb-version=\"16\"\n\n[db:history]\n1={\"db-id\":7,\"db-version\":\"16\"}\n\n",
        "1b989506e243f0e351feca1a5744af753a5fc3ca",
        "db",
        "db-id",
    ),
    (
        "[db]\ndb-id=0\ndb-system-id=7\ndb-version=\"16\"\n\n[db:history]\n1={\"db-id\":7,\"db-version\":\"16\"}\n\n",
        "a33c0476bc0903551b8e07130b64b1912ac5457c",
        "db",
        "db-id",
    ),
    (
        "[db]\ndb-id=1\ndb-version=\"16\"\n\n[db:history]\n1={\"db-id\":7,\"db-version\":\"16\"}\n\n",
        "6182772f4c248c14c5ca07355d2025c81cbd5228",
        "db",
        "db-system-id",
    ),
    (
        "[db]\ndb-id=1\ndb-system-id=7\ndb-version=\"016\"\n\n[db:history]\n1={\"db-id\":7,\"db-version\":\"16\"}\n\n",
        "2fba0c066b377dda43cf0dbe25739470fabde5b2",
        "db",
        "db-version",
    ),
    (
        "[db]\ndb-id=1\ndb-system-id=7\ndb-version=\"16\"\ndb-when=1\n\n[db:history]\n1={\"db-id\":7,\"db-version\":\"16\"}\n\n",
        "642c7e408344e7fd7cc2aca142e06bdb37a126bf",
        "db",
        "db-when",
    ),
    (
        "[backup]\na=1\n\n[db]\ndb-id=1\ndb-system-id=7\ndb-version=\"16\"\n\n[db:history]\n1={\"db-id\":7,\"db-version\":\"16\"}\n\n",
        "f16efbe7767648250e4d481caeb8ef961a5695a7",
        "backup",
        "a",
    ),
    (
        "[db]\ndb-id=1\ndb-system-id=7\ndb-version=\"16\"\n\n[db:history]\n01={\"db-id\":7,\"db-version\":\"16\"}\n1={\"db-id\":7,\"db-version\":\"16\"}\n\n",
        "478cdb3d9b2652b8d7e74ca44f5eb1d3b0a4d59f",
        "db:history",
        "01",
    ),
    (
        "[db]\ndb-id=1\ndb-system-id=7\ndb-version=\"16\"\n\n[db:history]\n1={\"db-id\":7,\"db-more\":1,\"db-version\":\"16\"}\n\n",
        "35fb3fb8c88561c2cc0b8c31d171caa497592b1e",
        "db:history",
        "1",
    ),
    (
        "[db]\ndb-id=1\ndb-system-id=7\ndb-version=\"16\"\n\n[db:history]\n1={\"db-id\":8,\"db-version\":\"16\"}\n\n",
        "70732d17e4eef2c6ed26a4bea57bbe324d00f2ed",
        "db:history",
        "1",
    ),
    (
        "[db]\ndb-id=1\ndb-system-id=7\ndb-version=\"16\"\n\n[db:history]\n1={\"db-id\":7,\"db-version\":\"16\"}\n3={\"db-id\":7,\"db-version\":\"16\"}\n\n",
        "04a0413822b41aa83d8015e875265a04f7b6b60e",
        "db:history",
        "2",
    ),
    (
        "[db]\ndb-id=2\ndb-system-id=7\ndb-version=\"16\"\n\n[db:history]\n1={\"db-id\":7,\"db-version\":\"16\"}\n\n",
        "50ea5c196fc87fb1dea72fb68d93a19ebb534b6d",
        "db:history",
        "2",
    ),
];

const BACKUP_MISFITS: &[Misfit] = &[
    (
        "[backup:current]\n20240102-030405F={\"backup-archive-start\":null,\"backup-archive-stop\":null,\"backup-info-repo-size-delta\":1,\"backup-info-size\":1,\"backup-prior\":null,\"backup-reference\":[],\"backup-timestamp-start\":1,\"backup-timestamp-stop\":2,\"backup-type\":\"diff\",\"db-id\":1}\n\n[db]\ndb-catalog-version=2\ndb-control-version=3\ndb-id=1\ndb-system-id=7\ndb-version=\"16\"\n\n[db:history]\n1={\"db-catalog-version\":2,\"db-control-version\":3,\"db-system-id\":7,\"db-version\":\"16\"}\n\n",
        "7b70e86566a804e987bc8d847bc814e753869208",
        "backup:current",
        "20240102-030405F",
    ),
    (
        "[backup:current]\n20240102-030405F_20240102-030505D={\"backup-archive-start\":null,\"backup-archive-stop\":null,\"backup-info-repo-size-delta\":1,\"backup-info-size\":1,\"backup-prior\":\"20240102-030405F\",\"backup-reference\":[],\"backup-timestamp-start\":1,\"backup-timestamp-stop\":2,\"backup-type\":\"diff\",\"db-id\":1}\n\n[db]\ndb-catalog-version=2\ndb-control-version=3\ndb-id=1\ndb-system-id=7\ndb-version=\"16\"\n\n[db:history]\n1={\"db-catalog-version\":2,\"db-control-version\":3,\"db-system-id\":7,\"db-version\":\"16\"}\n\n",
        "27b5ddba8c8c774709f8be85ee9d3363789aa866",
        "backup:current",
        "20240102-030405F_20240102-030505D",
    ),
    (
        "[backup:current]\n20240102-030405F={\"backup-archive-start\":null,\"backup-archive-stop\":null,\"backup-info-repo-size-delta\":1,\"backup-prior\":null,\"backup-reference\":[],\"backup-timestamp-start\":1,\"backup-timestamp-stop\":2,\"backup-type\":\"full\",\"db-id\":1}\n\n[db]\ndb-catalog-version=2\ndb-control-version=3\ndb-id=1\ndb-system-id=7\ndb-version=\"16\"\n\n[db:history]\n1={\"db-catalog-version\":2,\"db-control-version\":3,\"db-system-id\":7,\"db-version\":\"16\"}\n\n",
        "c924c6803201b129fc64dda25d23521532e7f254",
        "backup:current",
        "20240102-030405F",
    ),
    (
        "[backup:current]\n20240102-030405F={\"backup-archive-start\":null,\"backup-archive-stop\":null,\"backup-info-repo-size-delta\":1,\"backup-info-size\":1,\"backup-prior\":null,\"backup-reference\":[],\"backup-timestamp-start\":1,\"backup-timestamp-stop\":2,\"backup-type\":\"full\",\"db-id\":1,\"db-more\":1}\n\n[db]\ndb-catalog-version=2\ndb-control-version=3\ndb-id=1\ndb-system-id=7\ndb-version=\"16\"\n\n[db:history]\n1={\"db-catalog-version\":2,\"db-control-version\":3,\"db-system-id\":7,\"db-version\":\"16\"}\n\n",
        "4db7eb136dfe8f99f709dd96167dd17f4b00857a",
        "backup:current",
        "20240102-030405F",
    ),
    (
        "[backup:current]\n20240102-030405F={\"backup-archive-start\":null,\"backup-archive-stop\":\"000000010000000000000003\",\"backup-info-repo-size-delta\":1,\"backup-info-size\":1,\"backup-prior\":null,\"backup-reference\":[],\"backup-timestamp-start\":1,\"backup-timestamp-stop\":2,\"backup-type\":\"full\",\"db-id\":1}\n\n[db]\ndb-catalog-version=2\ndb-control-version=3\ndb-id=1\ndb-system-id=7\ndb-version=\"16\"\n\n[db:history]\n1={\"db-catalog-version\":2,\"db-control-version\":3,\"db-system-id\":7,\"db-version\":\"16\"}\n\n",
        "8e1fac388ed9db3ba0dea699ae345332cc326a85",
        "backup:current",
        "20240102-030405F",
    ),
    (
        "[backup:current]\n20240102-030405F={\"backup-archive-start\":\"00000001000000000000000a\",\"backup-archive-stop\":\"00000001000000000000000a\",\"backup-info-repo-size-delta\":1,\"backup-info-size\":1,\"backup-prior\":null,\"backup-reference\":[],\"backup-timestamp-start\":1,\"backup-timestamp-stop\":2,\"backup-type\":\"full\",\"db-id\":1}\n\n[db]\ndb-catalog-version=2\ndb-control-version=3\ndb-id=1\ndb-system-id=7\ndb-version=\"16\"\n\n[db:history]\n1={\"db-catalog-version\":2,\"db-control-version\":3,\"db-system-id\":7,\"db-version\":\"16\"}\n\n",
        "0df9e3c510d4acd681e2d3f62d72429e3838eede",
        "backup:current",
        "20240102-030405F",
    ),
    (
        "[backup:current]\n20240102-030405F={\"backup-archive-start\":null,\"backup-archive-stop\":null,\"backup-info-repo-size-delta\":1,\"backup-info-size\":1,\"backup-prior\":null,\"backup-reference\":[\"20240102-030405F\",\"20240101-030405F\"],\"backup-timestamp-start\":1,\"backup-timestamp-stop\":2,\"backup-type\":\"full\",\"db-id\":1}\n\n[db]\ndb-catalog-version=2\ndb-control-version=3\ndb-id=1\ndb-system-id=7\ndb-version=\"16\"\n\n[db:history]\n1={\"db-catalog-version\":2,\"db-control-version\":3,\"db-system-id\":7,\"db-version\":\"16\"}\n\n",
        "b9338f9cdf683b55d030de90a3939bc080c4ad9b",
        "backup:current",
        "20240102-030405F",
    ),
    (
        "[backup:current]\n20240230-030405F={\"backup-archive-start\":null,\"backup-archive-stop\":null,\"backup-info-repo-size-delta\":1,\"backup-info-size\":1,\"backup-prior\":null,\"backup-reference\":[],\"backup-timestamp-start\":1,\"backup-timestamp-stop\":2,\"backup-type\":\"full\",\"db-id\":1}\n\n[db]\ndb-catalog-version=2\ndb-control-version=3\ndb-id=1\ndb-system-id=7\ndb-version=\"16\"\n\n[db:history]\n1={\"db-catalog-version\":2,\"db-control-version\":3,\"db-system-id\":7,\"db-version\":\"16\"}\n\n",
        "8215263f65ff08458b5b50a0be025052bde63e5c",
        "backup:current",
        "20240230-030405F",
    ),
    (
        "[backup:current]\n20240102-030405F={\"backup-archive-start\":null,\"backup-archive-stop\":null,\"backup-info-repo-size-delta\":1,\"backup-info-size\":1,\"backup-prior\":null,\"backup-reference\":[],\"backup-timestamp-start\":1,\"backup-timestamp-stop\":2,\"backup-type\":\"full\",\"db-id\":1}\n20240102-030405F_20240102-030505D={\"backup-archive-start\":null,\"backup-archive-stop\":null,\"backup-info-repo-size-delta\":1,\"backup-info-size\":1,\"backup-prior\":\"20240102-030405F\",\"backup-reference\":[],\"backup-timestamp-start\":1,\"backup-timestamp-stop\":2,\"backup-type\":\"incr\",\"db-id\":1}\n\n[db]\ndb-catalog-version=2\ndb-control-version=3\ndb-id=1\ndb-system-id=7\ndb-version=\"16\"\n\n[db:history]\n1={\"db-catalog-version\":2,\"db-control-version\":3,\"db-system-id\":7,\"db-version\":\"16\"}\n\n",
        "4069ca12f261a1d157d209242b8de457c3c8a2f9",
        "backup:current",
        "20240102-030405F_20240102-030505D",
    ),
    (
        "[backup:current]\n20240102-030405F={\"backup-archive-start\":null,\"backup-archive-stop\":null,\"backup-info-repo-size-delta\":1,\"backup-info-size\":1,\"backup-prior\":null,\"backup-reference\":[],\"backup-timestamp-start\":1,\"backup-timestamp-stop\":2,\"backup-type\":\"full\",\"db-id\":2}\n\n[db]\ndb-catalog-version=2\ndb-control-version=3\ndb-id=1\ndb-system-id=7\ndb-version=\"16\"\n\n[db:history]\n1={\"db-catalog-version\":2,\"db-control-version\":3,\"db-system-id\":7,\"db-version\":\"16\"}\n\n",
        "8d6aca4af65de23ce5927cf9dea4d75a0b778b3d",
        "db:history",
        "2",
    ),
    (
        "[db:history]\n1={\"db-catalog-version\":2,\"db-control-version\":3,\"db-system-id\":7,\"db-version\":\"16\"}\n\n",
        "dfc5aa21427392a9d84bf49ef81ef339dc5103d5",
        "db",
        "db-catalog-version",
    ),
    (
        "[db]\ndb-catalog-version=2\ndb-id=1\ndb-system-id=7\ndb-version=\"16\"\n\n[db:history]\n1={\"db-catalog-version\":2,\"db-control-version\":3,\"db-system-id\":7,\"db-version\":\"16\"}\n\n",
        "c597daef57f9bee30a739e4f3bed4324d98e3e39",
        "db",
        "db-control-version",
    ),
    (
        "[db]\ndb-also=1\ndb-control-version=3\ndb-id=1\ndb-system-id=7\ndb-version=\"16\"\n\n[db:history]\n1={\"db-catalog-version\":2,\"db-control-version\":3,\"db-system-id\":7,\"db-version\":\"16\"}\n\n",
        "767f68e0390f4c96c179896dfe89c72fd7f2c0f0",
        "db",
        "db-also",
    ),
    (
        "[db]\ndb-catalog-version=2\ndb-control-version=3\ndb-id=1\ndb-system-id=7\ndb-version=\"16\"\n\n",
        "d4971e69afa303e6e7a85e0c716f3582acdea2db",
        "db:history",
        "1",
    ),
    (
        "[backup]\na=1\n\n[db]\ndb-catalog-version=2\ndb-control-version=3\ndb-id=1\ndb-system-id=7\ndb-version=\"16\"\n\n[db:history]\n1={\"db-catalog-version\":2,\"db-control-version\":3,\"db-system-id\":7,\"db-version\":\"16\"}\n\n",
        "03b5cca79c0c718ed83ab962e3c5f1c2be80d874",
        "backup",
        "a",
    ),
];

// Each text breaks the rules of its kind at its section and key.
fn check_misfits<I: ReadInfo>(
    rt: &impl Abort,
    alloc: Global,
    rows: &[Misfit],
) -> Result<(), NoMemory> {
    for &(body, sum, section, key) in rows {
        let text = format!(in alloc;
            "[backrest]\nbackrest-format=5\n\n{body}[backrest]\nbackrest-checksum=\"{sum}\"\n"
        )?;
        match read::<I>(alloc, text.as_str())? {
            Err(
                MemberFault::Form {
                    section: part,
                    key: name,
                },
            ) => {
                same_of(rt, body, part.as_str(), section);
                same_of(rt, body, name.as_str(), key);
            }
            _ => panic!(rt; "of {body:?}: a value, or another fault"),
        }
    }
    Ok(())
}

#[test]
fn archive_misfits(rt: HostRuntime) -> Result<(), Fail> {
    check_misfits::<ArchiveInfo>(&rt, rt.alloc(), MISFITS)?;
    Ok(())
}

#[test]
fn backup_misfits(rt: HostRuntime) -> Result<(), Fail> {
    check_misfits::<BackupInfo>(&rt, rt.alloc(), BACKUP_MISFITS)?;
    Ok(())
}

fn line_of(alloc: Global, text: &str) -> Result<Option<u32>, NoMemory> {
    match read::<ArchiveInfo>(alloc, text)? {
        Err(MemberFault::Syntax { line }) => Ok(Some(line)),
        _ => Ok(None),
    }
}

#[test]
fn cut_texts(rt: HostRuntime) -> Result<(), Fail> {
    let half = &ARCHIVE[..ARCHIVE.len() / 2];
    same(&rt, line_of(rt.alloc(), "")?, Some(1));
    same(&rt, line_of(rt.alloc(), half)?, Some(10));
    Ok(())
}

#[test]
fn damaged_texts(rt: HostRuntime) -> Result<(), Fail> {
    let wrong = ARCHIVE.replace(rt.alloc(), "e6ee", "e6ef")?;
    match read::<ArchiveInfo>(rt.alloc(), wrong.as_str())? {
        Err(MemberFault::Sum { known, found }) => {
            let other = Sum::read(b"5ab4590d6c21779f8a41b4a22f28e5f580cee6ef");
            let own = Sum::read(b"5ab4590d6c21779f8a41b4a22f28e5f580cee6ee");
            same(&rt, Some(known), other);
            same(&rt, Some(found), own);
        }
        _ => panic!(rt; "a value, or another fault"),
    }
    Ok(())
}
