//! The words of a command line without `--explain` and `--no-explain`.

ghost use Rattle.std.specs.Prelude.{◌≡◌, true, false, None, if◌then◌else◌, IfOk, map, string_bytes};
ghost use Rattle.explanations.specs.Words.{asks, explaining_of, without_explain};

use std::alloc::{AllocError, Global};

/// When a report is explained.
#[derive(Clone, Copy, Debug, PartialEq, Eq)]
pub enum Explaining {
    /// Always, by `--explain`.
    Always,
    /// Never, by `--no-explain`.
    Never,
    /// If standard error is a terminal, where somebody reads it; so without either word.
    OnTerminal,
}

impl Explaining {
    /// Whether a report is explained, where standard error is a terminal or not.
    pub fn is_wanted(self, is_terminal: bool) -> bool
        ensures always { self ≡ Explaining.Always → result ≡ true }
        ensures never { self ≡ Explaining.Never → result ≡ false }
        ensures on_terminal { self ≡ Explaining.OnTerminal → result ≡ is_terminal }
    {
        match self {
            Explaining::Always => true,
            Explaining::Never => false,
            Explaining::OnTerminal => is_terminal,
        }
    }
}

/// What a word asks for; None if it is neither `--explain` nor `--no-explain`, or a file's name.
fn asked_by(word: &str, is_name: bool) -> Option<Explaining>
    ensures { result ≡ (if is_name then None else asks word.now) }
{
    if is_name {
        return None;
    }
    match word {
        "--explain" => Some(Explaining::Always),
        "--no-explain" => Some(Explaining::Never),
        _ => None,
    }
}

/// A command line: the words by which the command runs, and when its report is explained.
#[derive(Drop)]
pub struct Asked<'a> {
    /// All words except `--explain` and `--no-explain`, in their order.
    pub words: Vec<&'a str>,
    /// When the report is explained: as the last of the two words says, before any `--`.
    pub explaining: Explaining,
}

impl<'a> Asked<'a> {
    /// Takes `--explain` and `--no-explain` out of the words of the command line, and notes what
    /// they ask for. Every command has these words, anywhere before `--`.
    pub fn of(alloc: Global, words: &'a [String]) -> Result<Asked<'a>, AllocError>
        ensures words { IfOk result (λ asked. map (λ w. w.now) asked.words.items ≡ without_explain (map string_bytes words.now)) }
        ensures explaining { IfOk result (λ asked. asked.explaining ≡ explaining_of (map string_bytes words.now)) }
    {
        let mut kept = Vec::with_capacity(alloc, words.len())?;
        let mut explaining = Explaining::OnTerminal;
        let mut are_names = false;
        for word in words {
            let word = word.as_str();
            match asked_by(word, are_names) {
                Some(asked) => explaining = asked,
                None => {
                    are_names = are_names || word == "--";
                    kept.push(word)?;
                }
            }
        }
        Ok(Asked {
            words: kept,
            explaining,
        })
    }
}
