// The fields of a word.
ghost use Rattle.std.specs.Prelude.{◌≡◌, ℕ, ◌+◌, ◌<◌, ◌≤◌, [], ◌∷◌, length, MatchOption};
ghost use Rattle.records.specs.Words.{bits, unnamed, words_of};

use crate::types::WordKind;

// The first word of the bytes, and the bytes after it.
pub(crate) fn split_word(bytes: &[u8]) -> Option<(u32, &[u8])>
    ensures words { MatchOption result (words_of bytes.now ≡ []) (λ p. words_of bytes.now ≡ p.0 ∷ words_of p.1.now) }
    ensures length { MatchOption result (length bytes.now < 4) (λ p. length p.1.now + 4 ≡ length bytes.now) }
{
    let [a, b, c, d, rest @ ..] = bytes else {
        return None;
    };
    // the first byte holds the top bits
    Some((u32::from_be_bytes([*a, *b, *c, *d]), rest))
}

// The number that stands in a word's bits from `high` down to `low`.
pub(crate) fn field(word: u32, high: u32, low: u32) -> u32
    requires order { low ≤ high }
    requires top { high < 32 }
    requires width { high < low + 31 }
    ensures { result ≡ bits high low word }
{
    (word >> low) % (1 << (high + 1 - low))
}

impl WordKind {
    // The bits of a word of this kind that have no name; they must be zero.
    pub(crate) fn unnamed(self, word: u32) -> u32
        ensures { result ≡ unnamed self word }
    {
        match self {
            WordKind::Head => field(word, 14, 0),
            WordKind::Vector => field(word, 27, 12),
            WordKind::Dc => field(word, 24, 8),
            WordKind::Coefficient => field(word, 17, 8),
        }
    }
}
