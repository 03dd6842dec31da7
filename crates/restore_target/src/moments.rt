// Reads a moment (PostgreSQL manual, "Date/Time Input").
ghost use Rattle.std.specs.Prelude.{◌≡◌, ◌≢◌, ℕ, ◌+◌, ◌<◌, ◌≤◌, ◌++◌, ◌∷◌, [], Bool, true, false};
ghost use Rattle.std.specs.Prelude.{IfSome, IfNone, position};
ghost use Rattle.std.specs.List.{list_all};
ghost use Rattle.base_devices.specs.States.{last_second};
ghost use Rattle.base_model.specs.Dates.{two};
ghost use Rattle.base_model.specs.Text.{Text};
ghost use Rattle.restore_target.specs.Moments.{Begins, full_label, IsLabelWithin, is_digit, IsPart, is_sign};
ghost use Rattle.restore_target.specs.Moments.{HasNoSign, begins_with_sign, sign_of, offset_text, IsOffset};
ghost use Rattle.restore_target.specs.Moments.{IsSecondOf, IsMomentText};
ghost use Rattle.restore_target.specs.Moments.{Offset as SpecOffset};
ghost use Rattle.restore_target.specs.Views.{offset_of};

use repo_names::read_label;

/// How far a written clock is from UTC.
#[derive(Clone, Copy)]
pub(crate) struct Offset {
    pub(crate) east: bool,
    pub(crate) hours: u8,
    pub(crate) minutes: u8,
    // whether it is written without minutes
    pub(crate) short: bool,
}

// The digits of a written second in front, as a full backup's label has them, and what follows.
fn label_digits(text: &[u8]) -> Option<([u8; 16], &[u8])>
    ensures value { IfSome result (λ p. (t : ℕ) → p.0 ≡ full_label t → Begins text.now t p.1.now) }
    ensures digits { IfSome result (λ p. IsLabelWithin text.now p.0) }
    ensures rest { IfSome result (λ p. (t : ℕ) (r : Text) → Begins text.now t r → p.1.now ≡ r) }
    ensures none { IfNone result ((t : ℕ) (rest : Text) → ¬ Begins text.now t rest) }
{
    let [
        y,
        e,
        a,
        r,
        dash,
        m,
        o,
        dash2,
        d,
        b,
        blank,
        h,
        j,
        colon,
        i,
        n,
        colon2,
        s,
        c,
        rest @ ..,
    ] = text
    else {
        return None;
    };
    if *dash != b'-' || *dash2 != b'-' || *blank != b' ' || *colon != b':' || *colon2 != b':' {
        return None;
    }
    let digits = [
        *y, *e, *a, *r, *m, *o, *d, *b, b'-', *h, *j, *i, *n, *s, *c, b'F',
    ];
    Some((digits, rest))
}

// A written second in front, counted from 1970 on, and what follows.
fn split_written(text: &[u8]) -> Option<(u64, &[u8])>
    ensures value { IfSome result (λ p. (p.0 ≤ last_second) × Begins text.now p.0 p.1.now) }
    ensures none { IfNone result ((t : ℕ) (r : Text) → t ≤ last_second → ¬ Begins text.now t r) }
{
    let (digits, rest) = label_digits(text)?;
    let label = read_label(&digits)?;
    match label.later {
        None => Some((label.full, rest)),
        Some(_) => None,
    }
}

fn is_digit(byte: u8) -> bool
    ensures { result ≡ is_digit byte }
{
    48 <= byte && byte <= 57
}

fn all_digits(text: &[u8]) -> bool
    ensures { result ≡ list_all is_digit text.now }
{
    text.iter().all(|b| is_digit(*b))
}

// Whether it is a part of a second: none, or a point and one to six digits.
fn is_part(text: &[u8]) -> bool
    ensures some { result ≡ true → IsPart text.now }
    ensures none { result ≡ false → ¬ IsPart text.now }
{
    match text {
        [] => true,
        [point, digits @ ..] => {
            *point == b'.' && 1 <= digits.len() && digits.len() <= 6 && all_digits(digits)
        }
    }
}

fn is_sign(byte: u8) -> bool
    ensures { result ≡ is_sign byte }
{
    byte == b'+' || byte == b'-'
}

fn first_sign(text: &[u8]) -> Option<usize>
    ensures { result ≡ position is_sign text.now }
{
    text.iter().position(|b| is_sign(*b))
}

// What comes before the first sign, and the rest.
fn split_sign(text: &[u8]) -> Option<(&[u8], &[u8])>
    ensures value { IfSome result (λ p. text.now ≡ p.0.now ++ p.1.now) }
    ensures front { IfSome result (λ p. HasNoSign p.0.now) }
    ensures rest { IfSome result (λ p. begins_with_sign p.1.now ≡ true) }
    ensures none { IfNone result (HasNoSign text.now) }
{
    let place = first_sign(text)?;
    Some(text.split_at(place))
}

fn digit(byte: u8) -> Option<u8>
    ensures value { IfSome result (λ n. (n < 10) × (byte ≡ 48 + n)) }
    ensures none { IfNone result ((n : ℕ) → n < 10 → byte ≢ 48 + n) }
{
    if is_digit(byte) {
        Some(byte - b'0')
    } else {
        None
    }
}

// The number of two digits.
fn two_digits(tens: u8, units: u8) -> Option<u8>
    ensures value { IfSome result (λ n. (n < 100) × (tens ∷ units ∷ [] ≡ two n)) }
    ensures none { IfNone result ((n : ℕ) → n < 100 → tens ∷ units ∷ [] ≢ two n) }
{
    let tens = digit(tens)?;
    let units = digit(units)?;
    Some(tens * 10 + units)
}

// An offset by its sign and numbers, where they may be one's.
fn make_offset(sign: u8, hours: u8, minutes: u8, short: bool) -> Option<Offset>
    requires minutes { short ≡ true → minutes ≡ 0 }
    ensures value { IfSome result (λ o. IsOffset (offset_of o)) }
    ensures sign { IfSome result (λ o. sign ≡ sign_of o.east) }
    ensures numbers { IfSome result (λ o. (o.hours ≡ hours) × (o.minutes ≡ minutes)) }
    ensures short { IfSome result (λ o. o.short ≡ short) }
    ensures none { IfNone result ((e : Bool) → sign ≡ sign_of e → hours ≤ 15 → 59 < minutes) }
{
    if !is_sign(sign) || hours > 15 || minutes > 59 {
        return None;
    }
    Some(Offset {
        east: sign == b'+',
        hours,
        minutes,
        short,
    })
}

// The offset of which this is the text.
fn read_offset(text: &[u8]) -> Option<Offset>
    ensures value { IfSome result (λ o. IsOffset (offset_of o) × (text.now ≡ offset_text (offset_of o))) }
    ensures none { IfNone result ((o : SpecOffset) → IsOffset o → text.now ≢ offset_text o) }
{
    match text {
        [sign, a, b] => make_offset(*sign, two_digits(*a, *b)?, 0, true),
        [sign, a, b, colon, c, d] => {
            if *colon != b':' {
                return None;
            }
            make_offset(*sign, two_digits(*a, *b)?, two_digits(*c, *d)?, false)
        }
        _ => None,
    }
}

// The second in UTC of a clock that is so far from it.
fn second_of(clock: u64, far: Offset) -> Option<u64>
    requires clock { clock ≤ last_second }
    requires far { IsOffset (offset_of far) }
    ensures value { IfSome result (IsSecondOf clock (offset_of far)) }
    ensures none { IfNone result ((second : ℕ) → ¬ IsSecondOf clock (offset_of far) second) }
{
    let seconds = u64::from(far.hours) * 3600 + u64::from(far.minutes) * 60;
    if far.east {
        clock.checked_sub(seconds)
    } else {
        Some(clock + seconds)
    }
}

/// The second of a moment, since 1970 in UTC: `YYYY-MM-DD HH:MM:SS`, with a part of a second or without, and
/// an offset, `+HH` or `+HH:MM`.
pub fn read_moment(text: &str) -> Option<u64>
    ensures value { IfSome result (λ second. IsMomentText text.now second) }
    ensures none { IfNone result ((second : ℕ) → ¬ IsMomentText text.now second) }
{
    let (clock, rest) = split_written(text.as_bytes())?;
    let (part, rest) = split_sign(rest)?;
    if !is_part(part) {
        return None;
    }
    second_of(clock, read_offset(rest)?)
}
