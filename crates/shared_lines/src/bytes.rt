//! Bytes that are taken apart.

ghost use Rattle.std.specs.Prelude.{◌≡◌, ◌≢◌, ℕ, ◌++◌, ◌∷◌, List, MatchOption};
ghost use Rattle.shared_lines.specs.inner.Words.{IsWord};

use memchr::memchr;

/// Splits a text at its first space: answers the word before the space, and the text after it; `None` if the text has no space.
pub(crate) fn cut_word(text: &[u8]) -> Option<(&[u8], &[u8])>
    ensures { MatchOption result (IsWord text.now) (λ p. (text.now ≡ p.0.now ++ 32 ∷ p.1.now) × IsWord p.0.now) }
{
    match memchr(b' ', text) {
        Some(end) => Some((&text[..end], &text[end + 1..])),
        None => None,
    }
}

/// Answers the bytes of a text after the prefix `front`; `None` if the text does not begin with it.
pub(crate) fn after_prefix<'a>(text: &'a [u8], front: &[u8]) -> Option<&'a [u8]>
    ensures { MatchOption result ((rest : List ℕ) → text.now ≢ front.now ++ rest) (λ rest. text.now ≡ front.now ++ rest.now) }
{
    text.strip_prefix(front)
}

/// Answers the bytes of a text before the suffix `end`; `None` if the text does not end with it.
pub(crate) fn before_suffix<'a>(text: &'a [u8], end: &[u8]) -> Option<&'a [u8]>
    ensures { MatchOption result ((rest : List ℕ) → text.now ≢ rest ++ end.now) (λ rest. text.now ≡ rest.now ++ end.now) }
{
    text.strip_suffix(end)
}
