// The part of the log, as the section `backup` states it.
ghost use Rattle.std.specs.Prelude.{◌≡◌, ℕ, ◌*◌, ◌+◌, ◌<◌, ◌^◌, List, map, codes, true, false, Some, IfSome, IfNone};
ghost use Rattle.serde_json.specs.Data.{Data, string};
ghost use Rattle.base_model.specs.declared.wal.WalPart.{WalPart};
ghost use Rattle.base_model.specs.Text.{In};
ghost use Rattle.base_model.specs.Fields.{whole};
ghost use Rattle.base_model.specs.InfoFiles.{IsSegment, segment_value};
ghost use Rattle.base_model.specs.ManifestText.{lsn_text, IsSegSize};
ghost use Rattle.repo_ini.specs.Parts.{key_of};
ghost use Rattle.repo_keys.specs.Agree.{IsOrdered};
ghost use Rattle.repo_names.specs.Spans.{IsSpanOf};
ghost use Rattle.repo_manifest.specs.Read.{IsLogRead, IsReadAt};

use base_model::{Lsn, SegSize, Segment, Span, WalPart};
use repo_keys::{find, whole_at};
use repo_names::{is_span, read_lsn, read_seg_size, read_segment};
use serde_json::Value;

// The text at a key, or an empty one.
fn text_at<'a>(keys: &'a [(String, Value)], key: &str) -> &'a str
    requires { IsOrdered (map key_of keys.now) }
    ensures { (t : List ℕ) → In (key.now, string t) (map key_of keys.now) → result.now ≡ t }
{
    let Some(value) = find(keys, key) else {
        return "";
    };
    match value.as_str() {
        Some(text) => text,
        None => "",
    }
}

// The segment at a key, or another where it has none.
fn segment_at(keys: &[(String, Value)], key: &str) -> Segment
    requires { IsOrdered (map key_of keys.now) }
    ensures rules { IsSegment result }
    ensures read { IsReadAt segment_value IsSegment (map key_of keys.now) key.now result }
{
    match read_segment(text_at(keys, key).as_bytes()) {
        Some(segment) => segment,
        None => Segment {
            timeline: 0,
            log: 0,
            seg: 0,
        },
    }
}

// The position at a key, or another where it has none.
fn lsn_at(keys: &[(String, Value)], key: &str) -> Lsn
    requires { IsOrdered (map key_of keys.now) }
    ensures rules { result.0 < 2 ^ 64 }
    ensures read { IsReadAt (λ at. string (lsn_text at)) (λ at. at < 2 ^ 64) (map key_of keys.now) key.now result.0 }
{
    match read_lsn(text_at(keys, key).as_bytes()) {
        Some(at) => at,
        None => Lsn(0),
    }
}

// The segment size at a key, or 16 MiB.
fn size_at(keys: &[(String, Value)], key: &str) -> SegSize
    requires { IsOrdered (map key_of keys.now) }
    ensures rules { IsSegSize result.0 }
    ensures read { IsReadAt whole IsSegSize (map key_of keys.now) key.now result.0 }
{
    let Some(bytes) = whole_at(keys, key) else {
        return SegSize(16_777_216);
    };
    match read_seg_size(bytes) {
        Some(size) => size,
        None => SegSize(16_777_216),
    }
}

/// The part of the log, where its first key is there.
pub(crate) fn log_of(keys: &[(String, Value)]) -> Option<WalPart>
    requires { IsOrdered (map key_of keys.now) }
    ensures some { IfSome result (IsLogRead (map key_of keys.now)) }
    ensures none { IfNone result ((d : Data) → ¬ In (codes "backup-archive-start", d) (map key_of keys.now)) }
{
    find(keys, "backup-archive-start")?;
    Some(WalPart {
        span: Span {
            start: segment_at(keys, "backup-archive-start"),
            stop: segment_at(keys, "backup-archive-stop"),
        },
        from: lsn_at(keys, "backup-lsn-start"),
        to: lsn_at(keys, "backup-lsn-stop"),
        size: size_at(keys, "backup-wal-segment-size"),
    })
}

/// Whether the segments keep their rules, where there is a part of the log.
pub(crate) fn has_span(wal: Option<WalPart>) -> bool
    requires { IfSome wal (λ w. IsSegSize w.size.0) }
    ensures fit { result ≡ true → IfSome wal (λ w. IsSpanOf w.size.0 w.span) }
    ensures other { result ≡ false → (w : WalPart) × (wal ≡ Some w) × ¬ IsSpanOf w.size.0 w.span }
{
    match wal {
        Some(wal) => is_span(wal.size, &wal.span),
        None => true,
    }
}
