//! Texts that are cut at marks, and lists of words as texts.

ghost use Rattle.std.specs.Prelude.{◌==◌, ◌≡◌, ◌<◌, ◌∷◌, [], length, MatchOption};
ghost use Rattle.std.specs.List.{slice_split};
ghost use Rattle.command_line.specs.SolverTable.{lists};
ghost use Rattle.command_line.specs.SolverWords.{last_part as last_part_of};

/// Cuts a text at the first of these marks: what is before it, and what is behind it. `None` if it has none.
fn cut(text: &str, mark: char) -> Option<(&str, &str)>
    requires { mark < 128 }
    ensures parts { MatchOption result (slice_split (λ b. b == mark) text.now ≡ text.now ∷ []) (λ x. slice_split (λ b. b == mark) text.now ≡ x.0.now ∷ slice_split (λ b. b == mark) x.1.now) }
    ensures shorter { MatchOption result (Unit {0}) (λ x. length x.1.now < length text.now) }
{
    text.split_once(mark)
}

/// Whether a text, of which single spaces part the words, has this word.
pub(crate) fn is_listed(words: &str, word: &str) -> bool
    ensures { result ≡ lists words.now word.now }
{
    let mut rest = words;
    while let Some((first, more)) = cut(rest, ' ') {
        if first == word {
            return true;
        }
        rest = more;
    }
    rest == word
}

/// The last part of a path.
pub(crate) fn last_part(path: &str) -> &str
    ensures { result.now ≡ last_part_of path.now }
{
    let mut rest = path;
    while let Some((_, more)) = cut(rest, '/') {
        rest = more;
    }
    rest
}
