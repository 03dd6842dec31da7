//! An info text, with the checksum by `sha1sum` of the JSON text that its rule names, and texts that are none.

use crate::same::{same, same_of};
use base_text::Sum;
use repo_ini::{IniFault, Part, read_info_text, write_info_text};
use std::alloc::Global;
use std::process::Abort;
use std::test::Fail;

const TEXT: &str = "[backrest]
backrest-format=5

[db]
db-id=1
db-system-id=6917529027641081857
db-version=\"16\"

[db:history]
1={\"db-id\":6917529027641081857,\"db-version\":\"16\"}

[backrest]
backrest-checksum=\"5ab4590d6c21779f8a41b4a22f28e5f580cee6ee\"
";

// The history of one cluster.
fn is_history(rt: &impl Abort, part: &Part) {
    same(rt, part.name.as_str(), "db:history");
    let [(key, value)] = part.keys.as_slice() else {
        panic!(rt; "{} keys", part.keys.len());
    };
    same(rt, key.as_str(), "1");
    let system = value.get("db-id").and_then(|id| id.as_u64());
    same(rt, system, Some(6917529027641081857));
    let version = value.get("db-version").and_then(|text| text.as_str());
    same(rt, version, Some("16"));
}

// What is reported about the current cluster.
fn is_current(rt: &impl Abort, part: &Part) {
    same(rt, part.name.as_str(), "db");
    let [(id, one), (system, number), (version, text)] = part.keys.as_slice() else {
        panic!(rt; "{} keys", part.keys.len());
    };
    same(rt, id.as_str(), "db-id");
    same(rt, one.as_u64(), Some(1));
    same(rt, system.as_str(), "db-system-id");
    same(rt, number.as_u64(), Some(6917529027641081857));
    same(rt, version.as_str(), "db-version");
    same(rt, text.as_str(), Some("16"));
}

// The sections of the text.
fn are_sections(rt: &impl Abort, parts: &[Part]) {
    let [current, history] = parts else {
        panic!(rt; "{} sections", parts.len());
    };
    is_current(rt, current);
    is_history(rt, history);
}

#[test]
fn reads_and_writes_the_text(rt: HostRuntime) -> Result<(), Fail> {
    match read_info_text(rt.alloc(), TEXT.as_bytes()) {
        Ok(parts) => {
            are_sections(&rt, &parts);
            let text = write_info_text(rt.alloc(), &parts)?;
            same(&rt, str::from_utf8(&text).ok(), Some(TEXT));
        }
        Err(fault) => panic!(rt; "{fault:?}"),
    }
    Ok(())
}

// The fault of a text. None of these has more than a thousand bytes.
fn fault_of(alloc: Global, text: &str) -> Option<IniFault> {
    if text.len() > 1000 {
        return None;
    }
    read_info_text(alloc, text.as_bytes()).err()
}

// Texts, and the line at which each breaks the rules.
const OTHER_FORMS: &[(&str, u32)] = &[
    // an end too soon: the line is the last one
    ("", 1),
    (
        "[backrest]\nbackrest-format=5\n\n[db]\ndb-id=1\n\n[backrest]\nbackrest-checksum=\"5ab4590d6c21779f8a41b4a22f28e5f580cee6ee\"",
        8,
    ),
    ("[backrest]\nbackrest-format=5\n\n[db]\ndb-id=1\n", 6),
    // one newline more at the end
    (
        "[backrest]\nbackrest-format=5\n\n[db]\ndb-id=1\n\n[backrest]\nbackrest-checksum=\"5ab4590d6c21779f8a41b4a22f28e5f580cee6ee\"\n\n",
        10,
    ),
    // a value in another spelling
    ("[backrest]\nbackrest-format=5\n\n[db]\ndb-id=01\n", 5),
    ("[backrest]\nbackrest-format=5\n\n[db]\ndb-id= 1\n", 5),
    ("[backrest]\r\nbackrest-format=5\r\n", 1),
    ("[backrest]\nbackrest-format=6\n", 2),
    // keys and sections out of order, and twice
    ("[backrest]\nbackrest-format=5\n\n[db]\nb=1\na=1\n", 6),
    ("[backrest]\nbackrest-format=5\n\n[db]\na=1\na=1\n", 6),
    (
        "[backrest]\nbackrest-format=5\n\n[db]\na=1\n\n[cipher]\n",
        7,
    ),
    // a section without keys
    ("[backrest]\nbackrest-format=5\n\n[db]\n\n", 5),
];

#[test]
fn refuses_other_forms(rt: HostRuntime) {
    for &(text, line) in OTHER_FORMS {
        let found = fault_of(rt.alloc(), text);
        same_of(&rt, text, found, Some(IniFault::Syntax { line }));
    }
}

const OTHER_SUM: &str = "[backrest]
backrest-format=5

[db]
db-id=1
db-system-id=6917529027641081857
db-version=\"16\"

[db:history]
1={\"db-id\":6917529027641081857,\"db-version\":\"16\"}

[backrest]
backrest-checksum=\"5ab4590d6c21779f8a41b4a22f28e5f580cee6ef\"
";

#[test]
fn refuses_another_sum(rt: HostRuntime) {
    match fault_of(rt.alloc(), OTHER_SUM) {
        Some(IniFault::Sum { known, found }) => {
            let other = Sum::read(b"5ab4590d6c21779f8a41b4a22f28e5f580cee6ef");
            let own = Sum::read(b"5ab4590d6c21779f8a41b4a22f28e5f580cee6ee");
            same(&rt, Some(known), other);
            same(&rt, Some(found), own);
        }
        other => panic!(rt; "{other:?}"),
    }
}
