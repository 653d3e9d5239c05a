//! The tokens of a step: what the code of each number means.

ghost use Rattle.std.specs.Prelude.{◌≡◌};
ghost use Rattle.lrat_binary.specs.Parser.{token_of};
ghost use Rattle.lrat_binary.specs.inner.ByteTaken.{IsPositive};

/// What a number of a step means. The list that it belongs to decides whether `Plus(n)` and `Minus(n)` are literals, clauses or candidates.
#[derive(Clone, Copy)]
pub(crate) enum Token {
    /// 0, which ends a list.
    End,
    /// An even number 2n: `Plus(n)`.
    Plus(u64),
    /// An odd number 2n + 1: `Minus(n)`.
    Minus(u64),
    /// 1, which means nothing.
    Other,
}

/// Answers what a number means.
#[inline(always)]
pub(crate) fn token_of(code: u64) -> Token
    ensures token { result ≡ token_of code }
    ensures counted { IsPositive result }
{
    if code == 0 {
        return Token::End;
    }
    if code == 1 {
        return Token::Other;
    }
    if code % 2 == 0 {
        Token::Plus(code / 2)
    } else {
        Token::Minus(code / 2)
    }
}
