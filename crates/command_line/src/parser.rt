//! The parser of a command line.

ghost use Rattle.std.specs.Prelude.{◌≡◌, IfOk, IfErr, IfSome, IfNone, List, Some, map, true};
ghost use Rattle.clap.specs.Words.{Row, Text, subcommand_of, takes};
ghost use Rattle.command_line.specs.CommandLine.{AreTaken, AsksFor, IsInRange, IsParsed, IsRefusal, Makes, SaysLarge};
ghost use Rattle.command_line.specs.Program.{program};
ghost use Rattle.command_line.specs.inner.Refusals.{fault_of_refusal};
ghost use Rattle.command_line.specs.declared.request.Request.{Request};
ghost use Rattle.option_table.specs.Refusals.{IsRefusalOf};
ghost use Rattle.option_table.specs.Rules.{app_of_program};

use crate::commands::words::is_given;
use crate::commands::{
    check, cover, cubes, decide, drill, elaborate, join, leaf, lift, model, receipt, refute, serve,
    session, share, solve, trim, weave, work,
};
use crate::request::{Command, Request, UsageFault};
use option_table::{Found, ProgramRules, Refusal, parse};
use std::alloc::{AllocError, Global};

/// The version of the program, and the kits that prove it.
const VERSION: &str = "0.1.0 (rattle-kit-13b or 13f, logic dac8208d650f15bf)";

/// What help says of the program, with examples.
const ABOUT: &str = concat!(
    "Decides propositional formulas, with proofs that anyone can check\n\n",
    "  satcluster decide f.cnf f.lrat   decide f.cnf; a proof is written if nothing satisfies it\n",
    "  satcluster check f.cnf f.lrat    check the proof of any solver\n",
    "  satcluster model f.cnf answer    check the assignment that a solver printed\n",
    "  satcluster solver f.cnf          decide f.cnf, by the words of other solvers",
);

/// Parses the words of a command line by the program's rules; the first word is the program's name.
/// Returns the command and its arguments.
fn read_by<'a, 'r>(
    alloc: Global,
    rules: &ProgramRules<'a, 'r>,
    words: &'a [&'a str],
) -> Result<Found<'a>, Refusal>
    requires { app_of_program rules.now ≡ program }
    ensures met { IfOk result (λ found. subcommand_of program (map (λ w. w.now) words.now) ≡ Some (found.name, found.rows)) }
    ensures taken { IfOk result (λ _. IsParsed (map (λ w. w.now) words.now)) }
    ensures complete { (met : Text × List Row) → takes program (map (λ w. w.now) words.now) ≡ true
        → subcommand_of program (map (λ w. w.now) words.now) ≡ Some met → IfErr result (λ f. f ≡ Refusal.NoMemory) }
    ensures refused { IfErr result (IsRefusalOf program (map (λ w. w.now) words.now)) }
{
    parse(alloc, rules, words)
}

/// Collects the rules of all commands, and parses the words of a command line by them; the first
/// word is the program's name. Returns the command and its arguments.
fn given_of<'a>(alloc: Global, words: &'a [&'a str]) -> Result<Found<'a>, Refusal>
    ensures met { IfOk result (λ found. subcommand_of program (map (λ w. w.now) words.now) ≡ Some (found.name, found.rows)) }
    ensures taken { IfOk result (λ _. IsParsed (map (λ w. w.now) words.now)) }
    ensures complete { (met : Text × List Row) → takes program (map (λ w. w.now) words.now) ≡ true
        → subcommand_of program (map (λ w. w.now) words.now) ≡ Some met → IfErr result (λ f. f ≡ Refusal.NoMemory) }
    ensures refused { IfErr result (IsRefusalOf program (map (λ w. w.now) words.now)) }
{
    let commands = [
        decide::rules(),
        solve::rules(),
        check::rules(),
        cubes::rules(),
        serve::rules(),
        work::rules(),
        drill::rules(),
        leaf::rules(),
        refute::rules(),
        join::rules(),
        lift::rules(),
        model::rules(),
        trim::rules(),
        elaborate::rules(),
        receipt::rules(),
        cover::rules(),
        session::rules(),
        share::rules(),
        weave::rules(),
    ];
    let rules = ProgramRules {
        name: "satcluster",
        version: VERSION,
        about: ABOUT,
        after_help: "Status: that of the command; 0 for help, 1 where the words are refused",
        commands: &commands,
    };
    read_by(alloc, &rules, words)
}

/// The fault that a refusal of the words becomes.
fn fault_of(refusal: Refusal) -> UsageFault
    ensures { result ≡ fault_of_refusal refusal }
{
    match refusal {
        Refusal::Help(text) => UsageFault::Help(text),
        Refusal::Refused => UsageFault::Usage,
        Refusal::NoMemory => UsageFault::NoMemory,
    }
}

/// Makes the request of a command and its parsed arguments; None if these do not make one. It is an
/// error if memory is refused.
fn request_of<'a>(alloc: Global, given: &Found<'a>) -> Result<Option<Request<'a>>, AllocError>
    ensures found { IfOk result (λ found. IfSome found (Makes given.now.name given.now.rows)) }
    ensures none { IfOk result (λ found. IfNone found ((request : Request) → Makes given.now.name given.now.rows request → ⊥)) }
    ensures range { IfOk result (λ found. IfSome found IsInRange) }
{
    match given.name() {
        "decide" => Ok(decide::asked(given)),
        "solve" => Ok(solve::asked(given)),
        "check" => Ok(check::asked(given)),
        "cubes" => Ok(cubes::asked(given)),
        "serve" => Ok(serve::asked(given)),
        "work" => Ok(work::asked(given)),
        "drill" => Ok(drill::asked(given)),
        "leaf" => Ok(leaf::asked(given)),
        "refute" => Ok(refute::asked(given)),
        "join" => join::asked(alloc, given),
        "lift" => Ok(lift::asked(given)),
        "model" => Ok(model::asked(given)),
        "trim" => Ok(trim::asked(given)),
        "elaborate" => Ok(elaborate::asked(given)),
        "receipt" => Ok(receipt::asked(given)),
        "cover" => cover::asked(alloc, given),
        "session" => Ok(session::asked(given)),
        "share" => Ok(share::asked(given)),
        "weave" => Ok(weave::asked(given)),
        _ => Ok(None),
    }
}

/// Makes the request of the words of a command line, or tells why they make none; the first word is
/// the program's name.
pub fn command<'a>(alloc: Global, words: &'a [&'a str]) -> Result<Request<'a>, UsageFault>
    // A request is what the words ask for, by the rules of the command line.
    ensures asks { IfOk result (AsksFor (map (λ w. w.now) words.now)) }
    // Words that a parse refuses give no request.
    ensures taken { IfOk result (λ _. IsParsed (map (λ w. w.now) words.now)) }
    // Its numbers are in their ranges.
    ensures range { IfOk result IsInRange }
    // Words that make a request are refused only if memory is.
    ensures complete { (request : Request) → AreTaken (map (λ w. w.now) words.now)
        → AsksFor (map (λ w. w.now) words.now) request → IfErr result (λ f. f ≡ UsageFault.NoMemory) }
    // Help, or the version, is returned if the words ask for it, unless memory is refused, and else never.
    ensures refused { IfErr result (IsRefusal (map (λ w. w.now) words.now)) }
{
    match command_of(alloc, words) {
        Ok(command) => {
            let Command { request, large: _ } = command;
            Ok(request)
        }
        Err(fault) => Err(fault),
    }
}

/// Makes the request of the words of a command line, as `command` does, and tells whether `--large`
/// is given.
pub fn command_of<'a>(alloc: Global, words: &'a [&'a str]) -> Result<Command<'a>, UsageFault>
    ensures asks { IfOk result (λ c. AsksFor (map (λ w. w.now) words.now) c.request) }
    ensures large { IfOk result (λ c. SaysLarge (map (λ w. w.now) words.now) c.large) }
    ensures taken { IfOk result (λ _. IsParsed (map (λ w. w.now) words.now)) }
    ensures range { IfOk result (λ c. IsInRange c.request) }
    ensures complete { (request : Request) → AreTaken (map (λ w. w.now) words.now)
        → AsksFor (map (λ w. w.now) words.now) request → IfErr result (λ f. f ≡ UsageFault.NoMemory) }
    ensures refused { IfErr result (IsRefusal (map (λ w. w.now) words.now)) }
{
    let given = match given_of(alloc, words) {
        Ok(given) => given,
        Err(refusal) => return Err(fault_of(refusal)),
    };
    match request_of(alloc, &given)? {
        Some(request) => Ok(Command {
            request,
            large: is_given(&given, "large"),
        }),
        None => Err(UsageFault::Usage),
    }
}
