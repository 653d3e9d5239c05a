//! The table of faults: a sentence on what each number means, and one on what to do.
//!
//! It stands once: `tools/faults.py` reads the rows here, and makes docs/FAULTS.md of them.

ghost use Rattle.std.specs.Prelude.{◌↔◌, IsSome};
ghost use Rattle.explanations.specs.Table.{HasNumber};
ghost use Rattle.explanations.specs.declared.table.Subject.TheVariants.{Answer, Cubes, DratProof, Events, Input, Proof, Session};

use crate::sentences::{MEMORY, Told, row};

/// What a file is read as, on which the meaning of its fault numbers depends.
#[derive(Clone, Copy)]
pub enum Subject {
    /// A formula.
    Input,
    /// An LRAT proof, or a log.
    Proof,
    /// A DRAT proof.
    DratProof,
    /// A splitting tree, or a list of cubes.
    Cubes,
    /// The output of a solver.
    Answer,
    /// The input of a session.
    Events,
    /// A LIDRUP text, the proof of a session.
    Session,
}

/// What to do if a proof is of another formula.
const SAME: &str = "Run the solver again, on this very file.";

/// What to do if a file ends too early.
const CUT: &str = "The file was cut: make it anew.";

/// What to do if the proof of a session is wrong.
const WRONG: &str = "The proof is wrong: run the session again.";

/// The sentences of a formula's faults; None for a number that no such fault has.
fn of_input(number: u64) -> Option<Told>
    ensures { IsSome result ↔ HasNumber Input number }
{
    match number {
        1 => row(
            "The text has no header: its first token is not `p`.",
            "Put the line `p cnf V C` before the clauses: V variables, C clauses.",
        ),
        2 => row(
            "The header is not `p cnf V C` with two numbers.",
            "Write `p cnf V C` on one line, and nothing else on it.",
        ),
        3 => row(
            "A token is no number.",
            "A comment has `c` as the first byte of its line, and a number neither a plus nor a leading zero. Old files end with a line `%`: `sed '/^%/,$d' f.cnf > g.cnf`.",
        ),
        4 => row(
            "A variable is above the number of variables that the header tells.",
            "Put the greatest variable into the header.",
        ),
        5 => row("The text ends within a clause: its `0` is missing.", CUT),
        6 => row(
            "The text ends after fewer clauses than the header tells.",
            "If the file was not cut, put the number of clauses into the header.",
        ),
        7 => row(
            "There are more clauses than the header tells.",
            "Put the number of clauses into the header.",
        ),
        8 => row(
            "The formula is above the limits: 1,000,000 variables, 4,000,000 clauses, 50,000,000 literals; with `--large`, 99,999,999 variables and clauses, 999,999,999 literals.",
            "Name `--large`, if the command takes that; another solver may take a greater one.",
        ),
        9 => row("There was not memory enough for the formula.", MEMORY),
        _ => None,
    }
}

/// The sentences of the faults of an LRAT proof or a log; None for a number that no such fault has.
fn of_proof(number: u64) -> Option<Told>
    ensures { IsSome result ↔ HasNumber Proof number }
{
    match number {
        1 => row(
            "The line, or the step of a binary file, is none of LRAT.",
            "Ask the solver for LRAT (CaDiCaL: `--lrat`). If it is the last one, the file was cut.",
        ),
        2 => row(
            "The lemma's number is not above all before it; in a log it is not the next.",
            "It is a proof of another formula. Run the solver again, on this very file.",
        ),
        3 => row(
            "A hint, a candidate or a deletion names a clause that is not there, or no more.",
            "It is a proof of another formula, or wrong. Run the solver again, on this very file.",
        ),
        4 => row(
            "The lemma has a literal and its negation.",
            "Ask the solver not to write such lemmas: nothing needs them.",
        ),
        5 => row(
            "A hint's clause is true already.",
            "It is a proof of another formula, or wrong. Run the solver again, on this very file.",
        ),
        6 => row(
            "A hint's clause has two literals or more that are open: nothing follows from it.",
            "It is a proof of another formula, or wrong. Run the solver again, on this very file.",
        ),
        7 => row(
            "A hint's clause is false, and further hints follow.",
            "The hints after the conflict have to go. Run the solver again, on this very file.",
        ),
        8 => row(
            "The hints reach no conflict.",
            "It is a proof of another formula, or wrong; a DRAT proof has no hints at all: `satcluster check --drat f.cnf f.drat` finds them.",
        ),
        9 => row(
            "A clause that holds the negation of the lemma's first literal is not named as a candidate.",
            "It is a proof of another formula, or wrong. Run the solver again, on this very file.",
        ),
        10 => row(
            "A candidate does not hold the negation of the lemma's first literal.",
            "The first literal of a RAT lemma is its pivot. Run the solver again, on this very file.",
        ),
        11 => row("A candidate is named twice.", SAME),
        12 => row(
            "A candidate that is blocked has hints.",
            "Leave these hints out: nothing needs them.",
        ),
        13 => row(
            "No empty clause was added.",
            "The solver was stopped, or it found a model. Run it to its end, and check the proof only after status 20.",
        ),
        14 => row("There was not memory enough for the proof.", MEMORY),
        15 => row(
            "The lemma does not follow by its hints alone.",
            "`lift` and `join` take lemmas of unit propagation. Ask the solver for a proof without such steps (Kissat: `--no-factor`).",
        ),
        16 => row(
            "A deletion names a clause of the formula.",
            "A log deletes lemmas of its own alone. Run the solver again, on this very file.",
        ),
        17 => row(
            "The last line adds no clause that closes the leaf.",
            "The log was cut, or is one of another leaf: run the leaf again.",
        ),
        _ => None,
    }
}

/// The sentences of the faults of a DRAT proof; None for a number that no such fault has.
fn of_drat(number: u64) -> Option<Told>
    ensures { IsSome result ↔ HasNumber DratProof number }
{
    match number {
        1 => row(
            "A byte cannot stand where it does in a DRAT proof.",
            "An LRAT proof is checked by `satcluster check` without `--drat`; for a FRAT proof have the solver write DRAT.",
        ),
        2 => row(
            "A variable is above 2,000,000, or twice the formula's variables if that is more.",
            SAME,
        ),
        3 => row("The proof ends within a step.", CUT),
        4 => row("The file is empty.", CUT),
        5 => row("There was not memory enough for the proof.", MEMORY),
        6 => row("The lemma is needed, and is neither RUP nor RAT.", SAME),
        7 => row(
            "After the last step propagation finds no conflict: the proof does not refute the formula.",
            "The solver was cut off, or the proof is of another formula.",
        ),
        8 => row(
            "The formula and the proof have more clauses or literals than this program can hold.",
            "Have the solver write LRAT, which is checked step by step.",
        ),
        9 => row(
            "The LRAT proof that was made is refused, so nothing is known of the DRAT proof.",
            "This is a fault of satcluster: report it, with both files.",
        ),
        _ => None,
    }
}

/// The sentences of the faults of a splitting tree or a list of cubes; None for a number that no such fault has.
fn of_cubes(number: u64) -> Option<Told>
    ensures { IsSome result ↔ HasNumber Cubes number }
{
    match number {
        1 => row(
            "The text has no header: its first token is not `p`.",
            "Put the line `p inccnf` before the clauses.",
        ),
        2 => row(
            "The header is not `p inccnf`.",
            "The tree is what `satcluster cubes` prints, not the formula.",
        ),
        3 => row(
            "A token is neither a number nor `a`, or is an `a` within a clause or a cube.",
            "Make the tree anew by `satcluster cubes`.",
        ),
        4 => row(
            "A cube has a variable above those of the clauses.",
            "The cubes are of another formula: split this one.",
        ),
        5 => row(
            "The text ends within a clause or a cube: its `0` is missing.",
            CUT,
        ),
        8 => row(
            "The tree is above the limits: those of a formula, and 65,536 cubes.",
            "Split less deep.",
        ),
        9 => row("There was not memory enough for the tree.", MEMORY),
        10 => row(
            "A clause follows the first cube.",
            "Put all clauses before all cubes.",
        ),
        11 => row(
            "A cube has a variable twice.",
            "Make the tree anew by `satcluster cubes`.",
        ),
        12 => row(
            "The cubes are not the leaves of one tree, from left to right: a leaf is missing, or one too many.",
            "`satcluster cubes --complete LIST INPUT` makes a tree of the cubes of a list.",
        ),
        13 => row("A cube has more than 64 literals.", "Split less deep."),
        _ => None,
    }
}

/// The sentences of the faults of a solver's output; None for a number that no such fault has.
fn of_answer(number: u64) -> Option<Told>
    ensures { IsSome result ↔ HasNumber Answer number }
{
    match number {
        1 => row(
            "A line begins with another byte than `c`, `s` or `v`.",
            "Put the `v` lines into the file as the solver has printed them.",
        ),
        2 => row(
            "A value is no number, or above 99,999,999.",
            "A number has neither a plus nor a leading zero.",
        ),
        3 => row(
            "A value follows the `0`.",
            "The file has the answers of two runs: take one of them.",
        ),
        4 => row(
            "A literal is named, and its negation too.",
            "The solver is wrong, or the file has the answers of two runs.",
        ),
        5 => row(
            "The text ends before the `0`.",
            "The file was cut, or the solver was run without `v` lines (`-n`).",
        ),
        14 => row("There was not memory enough for the answer.", MEMORY),
        _ => None,
    }
}

/// The sentences of the faults of a session's input; None for a number that no such fault has.
fn of_events(number: u64) -> Option<Told>
    ensures { IsSome result ↔ HasNumber Events number }
{
    match number {
        1 => row(
            "The text has no header: its first token is not `p`.",
            "Put the line `p inccnf` before the events.",
        ),
        2 => row(
            "The header is not `p inccnf`.",
            "EVENTS comes first, and PROOF second. A header tells no number here.",
        ),
        3 => row(
            "A token is no number; an `a` begins a query, and stands nowhere else.",
            "Write one event a line: the literals of a clause and `0`, or `a`, the literals of a query and `0`.",
        ),
        5 => row(
            "A line has no `0`, or a token behind it.",
            "One line is one event here, other than in a formula. If it is the last line, the file was cut.",
        ),
        8 => row(
            "The events are above the limits: 1,000,000 variables, 4,000,000 clauses, 50,000,000 literals of clauses, 1,000,000 literals of a query; with `--large`, 99,999,999 variables, clauses and literals of a query, 999,999,999 literals of clauses.",
            "Name `--large`.",
        ),
        9 => row("There was not memory enough for the events.", MEMORY),
        _ => None,
    }
}

/// The sentences of the faults of a LIDRUP text; None for a number that no such fault has.
fn of_session(number: u64) -> Option<Told>
    ensures { IsSome result ↔ HasNumber Session number }
{
    match number {
        1 => row(
            "The line is none of LIDRUP, or the text ends within it.",
            "Ask the solver for LIDRUP as text (CaDiCaL's interface: `lidrup=1`, `binary=0`). If it is the last one, the session was killed.",
        ),
        2 => row(
            "The number of a clause or a lemma is not above all before it.",
            "The file has the proofs of two sessions, or is wrong.",
        ),
        3 => row(
            "A hint names a clause that is not there, or no more.",
            WRONG,
        ),
        4 => row(
            "The lemma has a literal and its negation.",
            "Ask the solver not to write such lemmas: nothing needs them.",
        ),
        5 => row("A hint's clause is true already.", WRONG),
        6 => row(
            "A hint's clause has two literals or more that are open: nothing follows from it.",
            WRONG,
        ),
        7 => row(
            "A hint's clause is false, and further hints follow.",
            "The hints after the conflict have to go.",
        ),
        14 => row("There was not memory enough for the proof.", MEMORY),
        15 => row(
            "The lemma, or the core, does not follow by its hints.",
            WRONG,
        ),
        18 => row(
            "A clause or a query is not the next event: it has other literals, or another order, or no event is left.",
            "EVENTS has to be what the solver was sent, line by line. CaDiCaL's program (`--lidrup`) adds clauses of its own; its interface does not.",
        ),
        19 => row(
            "The line cannot stand here: a clause or a query within a query, or an answer that was not asked for.",
            WRONG,
        ),
        20 => row(
            "The model has a literal and its negation, or no literal of a clause that was given, or not all of the query.",
            "The solver is wrong; or it leaves out variables: a clause such as `3 -3` wants one of its literals, too.",
        ),
        21 => row("The core has a literal that the query has not.", WRONG),
        22 => row(
            "The text ends where a query is open, or where events are left.",
            "The session was killed, or more was sent than it answered.",
        ),
        _ => None,
    }
}

/// The sentences of the fault of this number in a file that is read as `subject`; None if such a file has no fault of this number.
pub fn explain_fault(subject: Subject, number: u64) -> Option<Told>
    ensures { IsSome result ↔ HasNumber subject number }
{
    match subject {
        Subject::Input => of_input(number),
        Subject::Proof => of_proof(number),
        Subject::DratProof => of_drat(number),
        Subject::Cubes => of_cubes(number),
        Subject::Answer => of_answer(number),
        Subject::Events => of_events(number),
        Subject::Session => of_session(number),
    }
}
