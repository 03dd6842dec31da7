//! The parts of a line.

ghost use Rattle.std.specs.Prelude.{◌≡◌, ◌==◌, ◌∷◌, option_map, position};
ghost use Rattle.repo_ini.specs.Config.{is_blank, trim_start, trim_end};
ghost use Rattle.repo_ini.specs.Form.{pieces};
ghost use Rattle.repo_ini.specs.Reading.{rest_pieces, cut_at, name_in, sum_in};

use base_text::Sum;

fn place_of(at: u8, bytes: &[u8]) -> Option<usize>
    ensures { result ≡ position (λ b. b == at) bytes.now }
{
    bytes.iter().position(|b| *b == at)
}

/// What comes before the first such byte, and after it.
pub fn cut_at(at: u8, bytes: &[u8]) -> Option<(&[u8], &[u8])>
    ensures { option_map (λ p. (p.0.now, p.1.now)) result ≡ cut_at at bytes.now }
{
    match place_of(at, bytes) {
        Some(place) => {
            let (prefix, rest) = bytes.split_at(place);
            Some((prefix, &rest[1..]))
        }
        None => None,
    }
}

/// The first line, and what comes after its newline.
pub fn next_piece(bytes: &[u8]) -> (&[u8], Option<&[u8]>)
    ensures { pieces bytes.now ≡ result.0.now ∷ rest_pieces result.1 }
{
    match cut_at(b'\n', bytes) {
        Some((piece, rest)) => (piece, Some(rest)),
        None => (bytes, None),
    }
}

// The name of `[name]`.
pub(crate) fn name_in(piece: &[u8]) -> Option<&[u8]>
    ensures { option_map (λ n. n.now) result ≡ name_in piece.now }
{
    let len = piece.len();
    if len > 1 && piece[0] == b'[' && piece[len - 1] == b']' {
        Some(&piece[1..len - 1])
    } else {
        None
    }
}

const CHECK: &[u8; 19] = b"backrest-checksum=\"";

// The sum of the last line.
pub(crate) fn sum_in(piece: &[u8]) -> Option<Sum>
    ensures { option_map (λ s. s.0) result ≡ sum_in piece.now }
{
    if piece.len() != 60 {
        return None;
    }
    if &piece[..19] != CHECK.as_slice() {
        return None;
    }
    if piece[59] != b'"' {
        return None;
    }
    Sum::read(&piece[19..59])
}

fn is_blank(b: u8) -> bool
    ensures { result ≡ is_blank b }
{
    b == b' ' || b == b'\t'
}

/// The text without blanks and tabs at its start.
pub fn trim_start(text: &[u8]) -> &[u8]
    ensures { result.now ≡ trim_start text.now }
{
    let mut rest = text;
    while let [b, after @ ..] = rest {
        if !is_blank(*b) {
            return rest;
        }
        rest = after;
    }
    rest
}

/// The text without blanks and tabs at its end.
pub fn trim_end(text: &[u8]) -> &[u8]
    ensures { result.now ≡ trim_end text.now }
{
    let mut rest = text;
    while let [before @ .., b] = rest {
        if !is_blank(*b) {
            return rest;
        }
        rest = before;
    }
    rest
}
