//! Bytes cut at separators.

ghost use Rattle.std.specs.Prelude.{◌≡◌, ◌<◌, ◌∷◌, [], length, MatchOption};
ghost use Rattle.std.specs.Option.{option_map};
ghost use Rattle.opl_line.specs.Cut.{is_one_of, split, before, after};
ghost use Rattle.opl_line.specs.Line.{is_blank};

use memchr::memchr_iter;

/// Whether the byte is one of two.
pub fn is_mark(a: u8, b: u8, byte: u8) -> bool
    ensures { result ≡ is_one_of a b byte }
{
    byte == a || byte == b
}

/// Whether the byte is a space or a tab.
pub fn is_blank(byte: u8) -> bool
    ensures { result ≡ is_blank byte }
{
    byte == b' ' || byte == b'\t'
}

/// The piece before the first of two separators, and the bytes behind it where there is one.
///
/// For one separator it is given twice. The bytes are walked up to the separator.
pub fn cut(bytes: &[u8], a: u8, b: u8) -> (&[u8], Option<&[u8]>)
    ensures before { result.0.now ≡ before (is_one_of a b) bytes.now }
    ensures after { option_map (λ rest. rest.now) result.1 ≡ after (is_one_of a b) bytes.now }
    ensures pieces { MatchOption result.1 (split (is_one_of a b) bytes.now ≡ result.0.now ∷ [])
        (λ rest. (split (is_one_of a b) bytes.now ≡ result.0.now ∷ split (is_one_of a b) rest.now) × (length rest.now < length bytes.now)) }
{
    for (i, byte) in bytes.iter().enumerate() {
        if is_mark(a, b, *byte) {
            let (piece, _) = bytes.split_at(i);
            let (_, rest) = bytes.split_at(i + 1);
            return (piece, Some(rest));
        }
    }
    (bytes, None)
}

/// How many pieces the separator cuts the bytes into. The bytes are walked.
pub fn count_pieces(bytes: &[u8], mark: u8) -> usize
    ensures { result ≡ length (split (is_one_of mark mark) bytes.now) }
{
    memchr_iter(mark, bytes).count() + 1
}
