//! Texts of manifests, with their checksums by `sha1sum` of the JSON texts that the rule names.

ghost use Rattle.std.specs.Prelude.{IfOk};
ghost use Rattle.base_model.specs.ManifestText.{IsManifest};
ghost use Rattle.base_model.specs.Values.{manifest_of};

use base_model::Manifest;
use base_text::NoMemory;
use repo_info::MemberFault;
use repo_manifest::decode;
use std::alloc::Global;
use std::process::Abort;

/// An incremental backup of a running server.
pub(crate) const ONLINE: &str = "[backrest]
backrest-format=5

[backup]
backup-archive-start=\"0000000100000000000000FE\"
backup-archive-stop=\"000000010000000100000001\"
backup-label=\"20240102-030405F_20240102-030505I\"
backup-lsn-start=\"0/FE000028\"
backup-lsn-stop=\"1/1000138\"
backup-prior=\"20240102-030405F\"
backup-timestamp-start=1704164705
backup-timestamp-stop=1704164706
backup-type=\"incr\"
backup-wal-segment-size=16777216

[backup:db]
db-catalog-version=202307071
db-control-version=1300
db-id=1
db-system-id=6917529027641081857
db-version=\"16\"

[backup:option]
option-bundle=true
option-delta=false
option-online=true

[target:file]
pg_data/PG_VERSION={\"bni\":1,\"bno\":0,\"checksum\":\"a9993e364706816aba3e25717850c26c9cd0d89d\",\"size\":3,\"timestamp\":1704164000}
pg_data/base/1/2={\"bni\":7,\"bno\":4096,\"checksum\":\"87acec17cd9dcd20a716cc2cf67417b71c8a7016\",\"reference\":\"20240102-030405F\",\"size\":10,\"timestamp\":1704164001}
pg_data/base/1/3={\"checksum\":\"da39a3ee5e6b4b0d3255bfef95601890afd80709\",\"size\":0,\"timestamp\":1704164002}
pg_data/global/pg_control={\"checksum\":\"87acec17cd9dcd20a716cc2cf67417b71c8a7016\",\"size\":10,\"timestamp\":1704164003}

[target:path]
pg_data={}
pg_data/base={}
pg_data/base/1={}
pg_data/global={}

[backrest]
backrest-checksum=\"5177922b4befab58dafe4b9255bf7b95e32b61b2\"
";

/// A full backup of an empty data folder.
pub(crate) const OFFLINE: &str = "[backrest]
backrest-format=5

[backup]
backup-label=\"20240102-030405F\"
backup-timestamp-start=1704164645
backup-timestamp-stop=1704164650
backup-type=\"full\"

[backup:db]
db-catalog-version=202307071
db-control-version=1300
db-id=1
db-system-id=7
db-version=\"16\"

[backup:option]
option-bundle=false
option-delta=true
option-online=false

[target:path]
pg_data={}

[backrest]
backrest-checksum=\"5c0839d0362c9a897b294c91cd0ad3b8f323109d\"
";

/// What a text gives; these texts are short.
pub(crate) fn read(alloc: Global, text: &str) -> Result<Result<Manifest, MemberFault>, NoMemory>
    ensures { IfOk result (λ r. IfOk r (λ m. IsManifest (manifest_of m))) }
{
    if text.len() > 1_000_000 {
        return Ok(Err(MemberFault::TooLong));
    }
    decode(alloc, text.as_bytes())
}

/// The manifest of a text that has one.
pub(crate) fn manifest_of(rt: &impl Abort, alloc: Global, text: &str) -> Result<Manifest, NoMemory>
    ensures { IfOk result (λ m. IsManifest (manifest_of m)) }
{
    match read(alloc, text)? {
        Ok(manifest) => Ok(manifest),
        Err(fault) => panic!(rt; "{fault:?}"),
    }
}
