//! Reads the files that a command line names, opens links, runs the library over them, and prints its report.
#![tactic(auto)]

ghost use Rattle.std.specs.Prelude.{◌≤◌};
ghost use Rattle.command_line.specs.CommandLine.{IsInRange};

mod cell;
mod cell_folder;
mod cubes_complete;
mod drafts;
mod elaboration_progress;
mod explain;
mod files;
mod growing_file;
mod identity;
mod linked_runs;
mod listener;
mod progress;
mod proof_file;
mod refute;
mod search_progress;
mod session;
mod solver;
mod solver_disk;
mod standard_input;
mod status_line;

use cell::{share, weave};
use command_line::solver_call;
use commands::{
    CoverFiles, Deciding, JoinFiles, JoinOptions, LiftFiles, Lifted, ReceiptFiles, Target,
    TrimFiles, WeaveFiles, check_files, check_session_files, cover_files, deliver, join_files,
    leaf_files, lift_drat_files, lift_files, receipt_files, refused, split_by_look_files,
    split_files, test_files, trim_files,
};
use cubes_complete::complete;
use dimacs::Limits;
use elaboration_progress::{check_drat, elaborate};
use explain::explain;
use explanations::Asked;
use files::{Machine, no_memory, read};
use formula_search::Asked as AskedSearch;
use identity::identity;
use leaves::{SearchOptions, run_look_within};
use linked_runs::{Files, serve, solve, work};
use node_main::{
    Command, Refusal, Report, Request, UsageFault, command_of, read_limits, run_cubes_within,
};
use refute::{LeafFiles, LeafRange, refute};
use search_progress::decide;
use session::{SessionFiles, session};
use solver::solver;
use standard_input::is_sound;
use status_line::Showing;
use std::alloc::AllocError;
use std::io::IsTerminal;
use std::net::Net;
use std::process::ExitCode;
use std::rt::Runtime;
use std::{env, io};

/// Reads the formula in the file `input` within these limits, and reports a tree of cubes of this depth. It errs if the file cannot be read
/// or memory runs out.
fn cubes<R: Runtime + AllocGlobal>(
    rt: &R,
    limits: Limits,
    input: &str,
    depth: u32,
) -> Result<Report, Refusal>
    requires { depth ≤ 16 }
{
    let input = read(rt, input, Refusal::Input)?;
    run_cubes_within(rt.alloc(), limits, input.as_slice(), depth).map_err(no_memory)
}

/// Reads the formula in the file `input` within these limits, and reports a tree that a look ahead splits into about `leaves` leaves. It
/// errs if the file cannot be read or memory runs out.
fn cubes_by_look_ahead<R: Runtime + AllocGlobal>(
    rt: &R,
    limits: Limits,
    input: &str,
    leaves: u32,
) -> Result<Report, Refusal> {
    let input = read(rt, input, Refusal::Input)?;
    run_look_within(rt.alloc(), limits, input.as_slice(), leaves).map_err(no_memory)
}

/// Reads the formula in the file `input`, drills a cluster of three workers on it for `turns` turns by the words of `seed`, and reports
/// what came of it. It errs if the file cannot be read or memory runs out.
fn drill<R: Runtime + AllocGlobal>(
    rt: &R,
    input: &str,
    seed: u64,
    turns: u32,
) -> Result<Report, Refusal> {
    let input = read(rt, input, Refusal::Input)?;
    node_main::drill(rt.alloc(), input.as_slice(), seed, turns).map_err(no_memory)
}

/// Answers what is lifted by these words: a proof of a leaf, a LIDRUP text for all leaves, or one for the leaves from `leaf` to `to`. It
/// errs if the words go together otherwise.
fn lifted_of(leaf: Option<u32>, to: Option<u32>, lidrup: bool) -> Result<Lifted, Refusal> {
    match (leaf, to, lidrup) {
        (Some(leaf), None, false) => Ok(Lifted::Leaf(u64::from(leaf))),
        (None, None, true) => Ok(Lifted::All),
        (Some(first), Some(last), true) => Ok(Lifted::Block {
            first: u64::from(first),
            last: u64::from(last),
        }),
        _ => Err(Refusal::Usage),
    }
}

/// Answers the file to which a proof goes, in this form; `None` if no path is given.
fn target(path: Option<&str>, binary: bool) -> Option<Target<'_>> {
    match path {
        Some(path) => Some(Target { path, binary }),
        None => None,
    }
}

/// Answers how progress is shown: so if the words ask for it, and else not at all.
fn shown(progress: bool, showing: Showing) -> Showing {
    if progress { showing } else { Showing::Nowhere }
}

/// Runs a request, whose inputs are read within these limits, and answers its report, or why it has none. `showing` is how progress is
/// shown if the words ask for it.
fn answer<R: Runtime + AllocGlobal + Net>(
    rt: &R,
    request: &Request,
    limits: Limits,
    showing: Showing,
) -> Result<Report, Refusal>
    requires { IsInRange request.now }
{
    match *request {
        Request::Decide {
            input,
            proof,
            limit,
            progress,
            stats,
            printing,
            binary,
        } => {
            let files = Deciding {
                input,
                proof: target(proof, binary),
                asked: AskedSearch {
                    limit,
                    witness: printing.witness,
                    stats: stats && !printing.quiet,
                },
                quiet: printing.quiet,
            };
            decide(rt, limits, &files, shown(progress, showing))
        }
        Request::Solve {
            input,
            cubes,
            proof,
            options,
        } => {
            let files = Files {
                input,
                cubes,
                proof,
                binary: options.binary,
            };
            solve(rt, limits, &files, &options, showing)
        }
        Request::Check {
            input,
            proof,
            session: is_session,
            drat: is_drat,
            progress,
        } => {
            if (is_session && is_drat) || (progress && !is_drat) {
                Err(Refusal::Usage)
            } else if is_session {
                check_session_files(&Machine { rt }, limits, input, proof)
            } else if is_drat {
                check_drat(rt, limits, input, proof, shown(progress, showing))
            } else {
                check_files(&Machine { rt }, limits, input, proof)
            }
        }
        Request::Cubes { input, depth } => cubes(rt, limits, input, depth),
        Request::Look { input, leaves } => cubes_by_look_ahead(rt, limits, input, leaves),
        Request::Serve {
            port,
            input,
            cubes,
            proof,
            options,
        } => {
            let files = Files {
                input,
                cubes,
                proof,
                binary: options.binary,
            };
            serve(rt, port, &files, &options, showing)
        }
        Request::Work {
            port,
            input,
            proof,
            options,
        } => {
            let files = Files {
                input,
                cubes: None,
                proof,
                binary: options.binary,
            };
            work(rt, port, &files, &options)
        }
        Request::Drill { input, seed, turns } => drill(rt, input, seed, turns),
        Request::Split {
            input,
            cubes,
            leaf,
            on,
        } => split_files(&Machine { rt }, limits, input, cubes, u64::from(leaf), on),
        Request::SplitByLook { input, cubes, leaf } => {
            split_by_look_files(&Machine { rt }, limits, input, cubes, u64::from(leaf))
        }
        Request::Complete { input, list } => complete(rt, limits, input, list),
        Request::Leaf { input, cubes, leaf } => {
            leaf_files(&Machine { rt }, limits, input, cubes, u64::from(leaf))
        }
        Request::Refute {
            input,
            cubes,
            leaf,
            to,
            grow,
            limit,
            fragment,
            printing,
            binary,
        } => {
            let files = LeafFiles {
                input,
                cubes,
                fragment,
                grows: grow,
                binary,
            };
            let search = SearchOptions {
                limit,
                quiet: printing.quiet,
                witness: printing.witness,
            };
            let leaves = LeafRange {
                first: u64::from(leaf),
                last: to.map(u64::from),
            };
            refute(rt, limits, &files, leaves, &search)
        }
        Request::Join {
            input,
            cubes,
            proof,
            ref fragments,
            printing,
            binary,
        } => {
            let options = JoinOptions {
                proof: target(proof, binary),
                quiet: printing.quiet,
                witness: printing.witness,
            };
            let files = JoinFiles {
                input,
                cubes,
                options,
            };
            join_files(&mut Machine { rt }, limits, &files, fragments)
        }
        Request::Lift {
            input,
            cubes,
            leaf,
            to,
            lidrup,
            drat: is_drat,
            proof,
            fragment,
            binary,
        } => {
            let log = Target {
                path: fragment,
                binary,
            };
            let files = LiftFiles {
                input,
                cubes,
                proof,
                log,
            };
            match (is_drat, lifted_of(leaf, to, lidrup)?) {
                (false, lifted) => lift_files(&mut Machine { rt }, limits, &files, lifted),
                (true, Lifted::Leaf(leaf)) => {
                    lift_drat_files(&mut Machine { rt }, limits, &files, leaf)
                }
                (true, _) => Err(Refusal::Usage),
            }
        }
        Request::Model { input, output } => test_files(&Machine { rt }, limits, input, output),
        Request::Elaborate {
            input,
            drat,
            lrat,
            progress,
            binary,
        } => {
            let out = Target { path: lrat, binary };
            let files = TrimFiles {
                input,
                proof: drat,
                out,
            };
            elaborate(rt, limits, &files, shown(progress, showing))
        }
        Request::Trim {
            input,
            proof,
            out,
            binary,
        } => {
            let out = Target { path: out, binary };
            let files = TrimFiles { input, proof, out };
            trim_files(&mut Machine { rt }, limits, &files)
        }
        Request::Receipt {
            input,
            cubes,
            log,
            receipt,
        } => {
            let files = ReceiptFiles {
                input,
                cubes,
                log,
                receipt,
            };
            receipt_files(&mut Machine { rt }, &files)
        }
        Request::Cover {
            input,
            cubes,
            ref receipts,
            quiet,
        } => {
            let files = CoverFiles {
                input,
                cubes,
                quiet,
            };
            cover_files(&Machine { rt }, &files, receipts)
        }
        Request::Session {
            input,
            proof,
            limit,
            witness,
        } => session(rt, limits, SessionFiles { input, proof }, limit, witness),
        Request::Share { .. } => share(rt, limits, request),
        Request::Weave {
            input,
            folder,
            log,
            cubes,
            binary,
        } => {
            let log = Target { path: log, binary };
            weave(rt, limits, folder, &WeaveFiles { input, log }, cubes)
        }
    }
}

/// Whether a request has `-q`.
fn is_quiet(request: &Request) -> bool {
    match request {
        Request::Solve { options, .. }
        | Request::Serve { options, .. }
        | Request::Work { options, .. } => options.quiet,
        Request::Decide { printing, .. }
        | Request::Refute { printing, .. }
        | Request::Share { printing, .. }
        | Request::Join { printing, .. } => printing.quiet,
        Request::Cover { quiet, .. } => *quiet,
        _ => false,
    }
}

/// The last lines of each help: what every command takes besides its own words.
const COMMON: &[u8] =
    b"\nEvery command takes --explain: in words, on standard error, what a c line means, and what to do.
If standard error is a terminal, that is told without it, except by --no-explain\n";

/// Whether the words, of which the first names the program, ask for the version, whose text is a line by itself.
fn asks_for_version(words: &[&str]) -> bool {
    match words.get(1) {
        Some(word) => *word == "--version" || *word == "-V",
        None => false,
    }
}

/// Reports, with status 0, the text of a help with the lines common to all; or the version, and of which commit the program was proved.
fn help<R: Runtime + AllocGlobal>(
    rt: &R,
    words: &[&str],
    text: &String,
) -> Result<Report, AllocError> {
    let mut report = Report::of(rt.alloc(), text.as_str().as_bytes(), 0)?;
    if asks_for_version(words) {
        report.stdout.extend_from_slice(identity(rt)?.as_slice())?;
    } else {
        report.stdout.extend_from_slice(COMMON)?;
    }
    Ok(report)
}

/// Runs by the words, and answers the report, or the line of a run without one.
fn respond<R: Runtime + AllocGlobal + Net>(
    rt: &R,
    words: &[&str],
    showing: Showing,
) -> Result<Report, &'static str> {
    match command_of(rt.alloc(), words) {
        Ok(Command { request, large }) => {
            if !is_sound(&request) {
                return Err(Refusal::Usage.line(false));
            }
            answer(rt, &request, read_limits(large), showing).map_err(|refusal| refusal.line(
                is_quiet(&request),
            ))
        }
        Err(UsageFault::Help(text)) => {
            help(rt, words, &text).map_err(|_| Refusal::NoMemory.line(false))
        }
        Err(UsageFault::Usage) => Err(Refusal::Usage.line(false)),
        Err(UsageFault::NoMemory) => Err(Refusal::NoMemory.line(false)),
    }
}

/// Answers the words of the program's call, the first of which names the program. It errs if a word is not UTF-8 or memory runs out.
fn words<R: Runtime + AllocGlobal>(rt: &R) -> Result<Vec<String>, Refusal> {
    let words = env::args(rt).map_err(|error| refused(error, Refusal::Usage))?;
    words.collect(rt.alloc()).map_err(no_memory)
}

/// Prints a report, or the line of a run without one, and answers the exit status, which is 1 if not all was printed.
fn print_outcome<R: Runtime>(rt: &R, found: &Result<Report, &'static str>) -> u8 {
    match deliver(&mut io::writer(rt), found) {
        Ok(status) => status,
        Err(_) => 1,
    }
}

/// Runs by the words, prints the report, explains it if the words ask for that or standard error is a terminal, and answers the exit
/// status. `--explain` and `--no-explain` are taken out of the words first, so the report and the status are those of the same words
/// without them.
fn run<R: Runtime + AllocGlobal + Net>(
    rt: &R,
    owned: &[String],
    showing: Showing,
) -> Result<u8, AllocError> {
    let asked = Asked::of(rt.alloc(), owned)?;
    let words = asked.words.as_slice();
    let found = respond(rt, words, showing);
    let status = print_outcome(rt, &found);
    let on_terminal = showing == Showing::InPlace;
    if asked.explaining.is_wanted(on_terminal) {
        explain(rt, words, &found, on_terminal);
    }
    Ok(status)
}

/// Runs by the words of the program's call, as a solver if they call one, and answers the exit status. If the words cannot be copied, it is
/// not known whether they have `-q`.
fn status_of<R: Runtime + AllocGlobal + Net>(rt: &R, showing: Showing) -> u8 {
    let owned = match words(rt) {
        Ok(owned) => owned,
        Err(refusal) => return print_outcome(rt, &Err(refusal.line(false))),
    };
    if let Some(call) = solver_call(owned.as_slice()) {
        return solver(rt, call);
    }
    match run(rt, owned.as_slice(), showing) {
        Ok(status) => status,
        Err(_) => print_outcome(rt, &Err(Refusal::NoMemory.line(false))),
    }
}

/// Runs the program. Progress, if the words ask for it, overwrites one line if standard error is a terminal, and else takes a new line each
/// time.
fn main(rt: HostRuntime) -> ExitCode {
    let showing = if rt.stderr().is_terminal() {
        Showing::InPlace
    } else {
        Showing::Lines
    };
    ExitCode::from(status_of(&rt, showing))
}
