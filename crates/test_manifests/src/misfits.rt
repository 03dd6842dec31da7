//! Texts that are no manifest's: the online backup's with one part changed, each with its checksum by `sha1sum`.

use crate::same::{same, same_of};
use crate::texts::{OFFLINE, ONLINE, read};
use base_text::{NoMemory, Sum};
use repo_info::MemberFault;
use std::alloc::Global;
use std::process::Abort;
use std::test::Fail;

const OWN_SUM: &str = "5177922b4befab58dafe4b9255bf7b95e32b61b2";

/// A part of the text, what is there instead, the checksum then, and the section and the key that are reported.
struct Misfit {
    case: &'static str,
    old: &'static str,
    new: &'static str,
    sum: &'static str,
    section: &'static str,
    key: &'static str,
}

const MISFITS: &[Misfit] = &[
    Misfit {
        case: "a section that no manifest has",
        old: "[target:path]\n",
        new: "[target:link]\na=1\n\n[target:path]\n",
        sum: "060e424d30f1a6d55bdac76d2a7ecde4dfae5608",
        section: "target:link",
        key: "a",
    },
    Misfit {
        case: "no section `backup`",
        old: "[backup]\nbackup-archive-start=\"0000000100000000000000FE\"\nbackup-archive-stop=\"000000010000000100000001\"\nbackup-label=\"20240102-030405F_20240102-030505I\"\nbackup-lsn-start=\"0/FE000028\"\nbackup-lsn-stop=\"1/1000138\"\nbackup-prior=\"20240102-030405F\"\nbackup-timestamp-start=1704164705\nbackup-timestamp-stop=1704164706\nbackup-type=\"incr\"\nbackup-wal-segment-size=16777216\n\n",
        new: "",
        sum: "4a4da4a20a89e917d06beb15a67baf2be402eb53",
        section: "backup",
        key: "backup-label",
    },
    Misfit {
        case: "a key that no manifest has",
        old: "backup-label=",
        new: "backup-extra=1\nbackup-label=",
        sum: "fb07592ed99fe805a580d20cdd00b35985ed6ce0",
        section: "backup",
        key: "backup-extra",
    },
    Misfit {
        case: "no label",
        old: "backup-label=\"20240102-030405F_20240102-030505I\"\n",
        new: "",
        sum: "2b28e8e34a5cd438cd0674168aa03fa27f9b7d9d",
        section: "backup",
        key: "backup-label",
    },
    Misfit {
        case: "a day that the calendar lacks",
        old: "\"20240102-030405F_20240102-030505I\"",
        new: "\"20240230-030405F_20240302-030505I\"",
        sum: "8e74ffaa6439d090aa22ea4e5d34a281bd542ce3",
        section: "backup",
        key: "backup-label",
    },
    Misfit {
        case: "the kind of another label",
        old: "\"incr\"",
        new: "\"diff\"",
        sum: "9f4aa3bc4ab9955456e4e6906d659d62bab8f0b0",
        section: "backup",
        key: "backup-type",
    },
    Misfit {
        case: "no prior backup of an incremental one",
        old: "backup-prior=\"20240102-030405F\"\n",
        new: "",
        sum: "98d7089f9a3a8b6ca206367c8d3bc9c7b9de306d",
        section: "backup",
        key: "backup-prior",
    },
    Misfit {
        case: "a time that is a text",
        old: "=1704164706\n",
        new: "=\"1704164706\"\n",
        sum: "5614441f6bd87c933ccab73b5eee01e20469b2f6",
        section: "backup",
        key: "backup-timestamp-stop",
    },
    Misfit {
        case: "a part of the log without its last segment",
        old: "backup-archive-stop=\"000000010000000100000001\"\n",
        new: "",
        sum: "68b942f23c75d8c12699eb30710be609cd296325",
        section: "backup",
        key: "backup-archive-stop",
    },
    Misfit {
        case: "a segment in lower case",
        old: "\"0000000100000000000000FE\"",
        new: "\"0000000100000000000000fe\"",
        sum: "25ed794bb6dbaf721e95332547dee0aa3e975d99",
        section: "backup",
        key: "backup-archive-start",
    },
    Misfit {
        case: "a position with a zero in front",
        old: "\"1/1000138\"",
        new: "\"1/01000138\"",
        sum: "8aff46d71d15f53520b20918e8c17b3b58398060",
        section: "backup",
        key: "backup-lsn-stop",
    },
    Misfit {
        case: "a position in lower case",
        old: "\"0/FE000028\"",
        new: "\"0/fe000028\"",
        sum: "e648db39046e67fb83807a0b6d323017af121e6b",
        section: "backup",
        key: "backup-lsn-start",
    },
    Misfit {
        case: "a segment size that is no power of two",
        old: "=16777216",
        new: "=16777215",
        sum: "22e5a5b45a7dc69af8ab4667e0e3ad0c9875ca12",
        section: "backup",
        key: "backup-wal-segment-size",
    },
    Misfit {
        case: "a segment past those of a log",
        old: "\"000000010000000100000001\"",
        new: "\"000000010000000100000100\"",
        sum: "e1424fed477589ae9c748fcd8bcb5cd86b1499db",
        section: "backup",
        key: "backup-wal-segment-size",
    },
    Misfit {
        case: "segments of two timelines",
        old: "\"000000010000000100000001\"",
        new: "\"000000020000000100000001\"",
        sum: "03cf29942776d1a925a17412d15b690ecbd3428a",
        section: "backup",
        key: "backup-wal-segment-size",
    },
    Misfit {
        case: "a last segment before the first",
        old: "\"000000010000000100000001\"",
        new: "\"0000000100000000000000FD\"",
        sum: "c87cb7ae587c9f401a98710b895f0a3f92452958",
        section: "backup",
        key: "backup-wal-segment-size",
    },
    Misfit {
        case: "segments too far apart",
        old: "\"000000010000000100000001\"",
        new: "\"000000010000010100000001\"",
        sum: "7bca0cb63deceb7b37f084fe4553a475d6ad19b0",
        section: "backup",
        key: "backup-wal-segment-size",
    },
    Misfit {
        case: "a cluster without its catalog version",
        old: "db-catalog-version=202307071\n",
        new: "",
        sum: "237a04ef6530f0687b5dd94900b8411928552336",
        section: "backup:db",
        key: "db-catalog-version",
    },
    Misfit {
        case: "an identifier that is a text",
        old: "=6917529027641081857",
        new: "=\"6917529027641081857\"",
        sum: "0cc06c4f064a23d8d033fc7c71fc9b4c0fd77fae",
        section: "backup:db",
        key: "db-system-id",
    },
    Misfit {
        case: "a choice that is a number",
        old: "option-bundle=true",
        new: "option-bundle=1",
        sum: "9279ce3da7b27a4ea33fd248b643eb69fa4725bd",
        section: "backup:option",
        key: "option-bundle",
    },
    Misfit {
        case: "a log, and no server asked",
        old: "option-online=true",
        new: "option-online=false",
        sum: "1d54fb5507830c55cbe803d3bbd88ac6fc1a1eed",
        section: "backup:option",
        key: "option-online",
    },
    Misfit {
        case: "a file with another member",
        old: "\"size\":3,",
        new: "\"mode\":420,\"size\":3,",
        sum: "0225a30f4d3383ffa32755c202da10ca8067aa3a",
        section: "target:file",
        key: "pg_data/PG_VERSION",
    },
    Misfit {
        case: "a bundle of number 0",
        old: "\"bni\":1,",
        new: "\"bni\":0,",
        sum: "6c9a2436da8287a4c3b9b5f73366f3d4a9d573cf",
        section: "target:file",
        key: "pg_data/PG_VERSION",
    },
    Misfit {
        case: "a place in no bundle",
        old: "\"bni\":7,",
        new: "",
        sum: "f3ce9141d7c7c42ac4f551066aa8ad65b6212733",
        section: "target:file",
        key: "pg_data/base/1/2",
    },
    Misfit {
        case: "a sum in upper case",
        old: "a9993e364706816aba3e25717850c26c9cd0d89d",
        new: "A9993E364706816ABA3E25717850C26C9CD0D89D",
        sum: "16e36de99712e47201005aa356a7f052c3f4a7fe",
        section: "target:file",
        key: "pg_data/PG_VERSION",
    },
    Misfit {
        case: "a reference that is no label",
        old: "\"reference\":\"20240102-030405F\"",
        new: "\"reference\":\"20240102-030405\"",
        sum: "ad0d267c06d9fdfe0fadd2a5f22ced68097ae7a5",
        section: "target:file",
        key: "pg_data/base/1/2",
    },
    Misfit {
        case: "the sum of other bytes at a file without bytes",
        old: "da39a3ee5e6b4b0d3255bfef95601890afd80709",
        new: "87acec17cd9dcd20a716cc2cf67417b71c8a7016",
        sum: "0dc3072a959ff476c3acce368eb0f47cd6afc10c",
        section: "target:file",
        key: "pg_data/base/1/3",
    },
    Misfit {
        case: "a place of a file without bytes",
        old: ",\"size\":0",
        new: ",\"reference\":\"20240102-030405F\",\"size\":0",
        sum: "60584c87a17fce37bd412e015dd7fdfc7d8d4fe5",
        section: "target:file",
        key: "pg_data/base/1/3",
    },
    Misfit {
        case: "a size that is a text",
        old: "\"size\":3,",
        new: "\"size\":\"3\",",
        sum: "45da866cf5ff921876905c6b1c036c940b3b2bae",
        section: "target:file",
        key: "pg_data/PG_VERSION",
    },
    Misfit {
        case: "sizes that sum to more than 2^63",
        old: "\"size\":3,",
        new: "\"size\":9223372036854775808,",
        sum: "fda3bcb82138608da22939b2a086c2904aee7d9c",
        section: "target:file",
        key: "pg_data/base/1/2",
    },
    Misfit {
        case: "a file of the recovery",
        old: "pg_data/global/pg_control=",
        new: "pg_data/recovery.signal=",
        sum: "4cb3b27b5c690a6e711667c58ce589a11b2bee26",
        section: "target:file",
        key: "pg_data/recovery.signal",
    },
    Misfit {
        case: "a temporary name",
        old: "pg_data/base/1/3=",
        new: "pg_data/base/1/3.pgbackrest.tmp=",
        sum: "d04636de6acd0304a82e5134edc4a3a41e81f638",
        section: "target:file",
        key: "pg_data/base/1/3.pgbackrest.tmp",
    },
    Misfit {
        case: "a name that leads upwards",
        old: "pg_data/base/1/2=",
        new: "pg_data/base/1/..=",
        sum: "9438c6097f6b4b2f425c4526c121b43326a6cce3",
        section: "target:file",
        key: "pg_data/base/1/..",
    },
    Misfit {
        case: "a file beside the data folder",
        old: "pg_data/PG_VERSION=",
        new: "pg_conf/PG_VERSION=",
        sum: "789b3218a9c31c882ebff8d972e27de628714103",
        section: "target:file",
        key: "pg_conf/PG_VERSION",
    },
    Misfit {
        case: "a file without its folder",
        old: "pg_data/global={}\n",
        new: "",
        sum: "6ffccdb4f9f5282b7e21851d9f2f6fdd4e76f59a",
        section: "target:file",
        key: "pg_data/global/pg_control",
    },
    Misfit {
        case: "a folder without its folder",
        old: "pg_data/global={}\n",
        new: "pg_data/global={}\npg_data/pg_wal/summaries={}\n",
        sum: "516dde9dcc5ca6d8fab375c887649e0641c0f83e",
        section: "target:path",
        key: "pg_data/pg_wal/summaries",
    },
    Misfit {
        case: "a file that is a folder",
        old: "pg_data/base/1={}\n",
        new: "pg_data/base/1={}\npg_data/base/1/3={}\n",
        sum: "12e29b7b31d298dc62750789af568f09fb15fbc7",
        section: "target:path",
        key: "pg_data/base/1/3",
    },
    Misfit {
        case: "a folder with a member",
        old: "pg_data/global={}",
        new: "pg_data/global={\"mode\":448}",
        sum: "b7a13dc9f5f6b666036632f82c78633258ed4bfb",
        section: "target:path",
        key: "pg_data/global",
    },
    Misfit {
        case: "a folder of a configuration file",
        old: "pg_data/global={}\n",
        new: "pg_data/global={}\npg_data/postgresql.auto.conf={}\n",
        sum: "69f871106bab8f5c702e8cd5f260a10d069c4bd4",
        section: "target:path",
        key: "pg_data/postgresql.auto.conf",
    },
    Misfit {
        case: "no data folder",
        old: "pg_data={}\n",
        new: "",
        sum: "807224c0d14d5b22c7c41e194d17199580c426b1",
        section: "target:path",
        key: "pg_data",
    },
];

// The section and the key that are reported for a text.
fn form_of(alloc: Global, text: &str) -> Result<Option<(String, String)>, NoMemory> {
    match read(alloc, text)? {
        Err(MemberFault::Form { section, key }) => Ok(Some((section, key))),
        _ => Ok(None),
    }
}

#[test]
fn misfits(rt: HostRuntime) -> Result<(), Fail> {
    let alloc = rt.alloc();
    for row in MISFITS {
        let body = ONLINE.replace(alloc, row.old, row.new)?;
        let text = body.replace(alloc, OWN_SUM, row.sum)?;
        let Some((section, key)) = form_of(alloc, text.as_str())? else {
            panic!(rt; "of {:?}: a manifest, or another fault", row.case)
        };
        same_of(&rt, row.case, section.as_str(), row.section);
        same_of(&rt, row.case, key.as_str(), row.key);
    }
    Ok(())
}

fn line_of(alloc: Global, text: &str) -> Result<Option<u32>, NoMemory> {
    match read(alloc, text)? {
        Err(MemberFault::Syntax { line }) => Ok(Some(line)),
        _ => Ok(None),
    }
}

#[test]
fn cut_texts(rt: HostRuntime) -> Result<(), Fail> {
    let half = &OFFLINE[..OFFLINE.len() / 2];
    let lines = half.bytes().filter(|byte| *byte == b'\n').count() + 1;
    same(&rt, line_of(rt.alloc(), "")?, Some(1));
    same(&rt, line_of(rt.alloc(), half)?, u32::try_from(lines).ok());
    Ok(())
}

// The checksum that a text states, and the one that it has.
fn sums_of(alloc: Global, text: &str) -> Result<Option<(Sum, Sum)>, NoMemory> {
    match read(alloc, text)? {
        Err(MemberFault::Sum { known, found }) => Ok(Some((known, found))),
        _ => Ok(None),
    }
}

#[test]
fn a_size_changed_by_hand(rt: HostRuntime) -> Result<(), Fail> {
    let wrong = ONLINE.replace(rt.alloc(), "\"size\":3,", "\"size\":4,")?;
    let known = Sum::read(OWN_SUM.as_bytes()).expect(&rt, "a sum");
    let found = Sum::read(b"81dc5b918b1d04b1e3ab52efc98b596f54c71dd2").expect(&rt, "a sum");
    same(
        &rt,
        sums_of(rt.alloc(), wrong.as_str())?,
        Some((known, found)),
    );
    Ok(())
}
