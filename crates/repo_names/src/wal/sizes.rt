// Segment sizes (PostgreSQL manual, "initdb").
ghost use Rattle.std.specs.Prelude.{◌≡◌, IfSome, IfNone};
ghost use Rattle.base_model.specs.ManifestText.{IsSegSize, segments_per_log};

use base_model::SegSize;

/// The segment size of this many bytes.
pub fn read_seg_size(bytes: u64) -> Option<SegSize>
    ensures value { IfSome result (λ size. (size.0 ≡ bytes) × IsSegSize bytes) }
    ensures none { IfNone result (¬ IsSegSize bytes) }
{
    for exponent in 20..31u32 {
        if bytes == 1 << exponent {
            return Some(SegSize(bytes as u32));
        }
    }
    None
}

/// How many segments of this size a log has.
pub fn segments_per_log(size: SegSize) -> u32
    requires { IsSegSize size.0 }
    ensures { result ≡ segments_per_log size.0 }
{
    ((1 << 32) / u64::from(size.0)) as u32
}
