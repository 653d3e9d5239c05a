//! Whether the program is called as a solver.

ghost use Rattle.std.specs.Prelude.{◌≡◌, map, option_map, string_bytes};
ghost use Rattle.command_line.specs.SolverTable.{lists};
ghost use Rattle.command_line.specs.SolverWords.{behind_command, call_of, minisat_names, other_names, solver_words};

use crate::solver_words::lists::{is_listed, last_part};

/// A call as a solver.
#[derive(Clone, Copy)]
pub struct SolverCall<'a> {
    /// Whether it is MiniSat that is called, whose second file is its result.
    pub is_minisat: bool,
    /// The words of the solver.
    pub words: &'a [String],
}

/// Whether MiniSat is called by this name.
fn is_of_minisat(name: &str) -> bool
    ensures { result ≡ lists minisat_names name.now }
{
    is_listed(
        "minisat minisat2 minisat_core minisat_release minisat_simp minisat_static",
        name,
    )
}

/// Whether another solver is called by this name.
fn is_of_other_solver(name: &str) -> bool
    ensures { result ≡ lists other_names name.now }
{
    is_listed("cadical kissat satcluster-solver", name)
}

/// Answers the words behind the command `solver`, if that is the first of these words.
fn by_command<'a>(words: &'a [String]) -> Option<SolverCall<'a>>
    ensures { option_map call_of result ≡ behind_command (map string_bytes words.now) }
{
    let (command, words) = words.split_first()?;
    if command.as_str() != "solver" {
        return None;
    }
    Some(SolverCall {
        is_minisat: false,
        words,
    })
}

/// Answers the words of a solver, if these words of a command line, of which the first one is the program's name, call one: by the name of
/// a solver, or by the command `solver`.
pub fn solver_call<'a>(words: &'a [String]) -> Option<SolverCall<'a>>
    ensures { option_map call_of result ≡ solver_words (map string_bytes words.now) }
{
    let (called, words) = words.split_first()?;
    let name = last_part(called.as_str());
    let is_minisat = is_of_minisat(name);
    if is_minisat || is_of_other_solver(name) {
        return Some(SolverCall { is_minisat, words });
    }
    by_command(words)
}
