//! What words ask for on a command line.

use command_line::{Command, Options, Printing, Request, USUAL, UsageFault, command, command_of};
use std::alloc::Global;
use std::process::Abort;

/// What is printed where no word leaves anything out.
const PRINTED: Printing = Printing {
    quiet: false,
    witness: true,
};

/// The words of a line, of which the first is the program's name.
fn words_of<'a>(rt: &impl Abort, alloc: Global, line: &'a str) -> Vec<&'a str> {
    line.split(' ').collect(alloc).expect(rt, "memory")
}

fn is_asked(request: &Request<'_>, want: &Request<'_>) -> bool {
    request == want
}

fn asks(rt: &impl Abort, alloc: Global, line: &str, want: Request<'_>) {
    match command(alloc, &words_of(rt, alloc, line)) {
        Ok(request) => assert!(rt; is_asked(&request, &want)),
        Err(_) => panic!(rt; "the words are refused"),
    }
}

fn refuses(rt: &impl Abort, alloc: Global, line: &str) {
    let is_refused = matches!(
        command(alloc, &words_of(rt, alloc, line)),
        Err(UsageFault::Usage)
    );
    assert!(rt; is_refused);
}

/// No line begins as an answer does, and none ends with a blank.
fn is_no_answer(text: &str) -> bool {
    for line in text.lines() {
        if line.starts_with("s ") || line.ends_with(" ") {
            return false;
        }
    }
    true
}

/// Words that ask for help or the version: it has this text, no line that begins as an answer does, and no blank at a line's end.
fn helps(rt: &impl Abort, alloc: Global, line: &str, part: &str) {
    match command(alloc, &words_of(rt, alloc, line)) {
        Err(UsageFault::Help(text)) => {
            let text = text.as_str();
            assert!(rt; text.contains(part) && is_no_answer(text));
        }
        _ => panic!(rt; "no help"),
    }
}

#[test]
fn a_decision_with_its_defaults_and_with_all_its_words(rt: HostRuntime) {
    let plain = Request::Decide {
        input: "f.cnf",
        proof: None,
        limit: None,
        progress: false,
        stats: false,
        printing: PRINTED,
        binary: false,
    };
    asks(&rt, rt.alloc(), "satcluster decide f.cnf", plain);
    let full = Request::Decide {
        input: "f.cnf",
        proof: Some("f.lrat"),
        limit: Some(1_000_000_000),
        progress: true,
        stats: true,
        printing: Printing {
            quiet: true,
            witness: false,
        },
        binary: true,
    };
    let words =
        "satcluster decide --large --progress --stats --limit 1000000000 --binary -q -n f.cnf f.lrat";
    asks(&rt, rt.alloc(), words, full);
    refuses(&rt, rt.alloc(), "satcluster decide --limit 0 f.cnf");
    refuses(
        &rt,
        rt.alloc(),
        "satcluster decide --limit 1000000001 f.cnf",
    );
    refuses(&rt, rt.alloc(), "satcluster decide --depth 0 f.cnf");
}

#[test]
fn a_solve_with_its_defaults_and_with_all_its_words(rt: HostRuntime) {
    let plain = Request::Solve {
        input: "f.cnf",
        cubes: None,
        proof: None,
        options: USUAL,
    };
    asks(&rt, rt.alloc(), "satcluster solve f.cnf", plain);
    let full = Request::Solve {
        input: "f.cnf",
        cubes: Some("f.icnf"),
        proof: Some("f.lrat"),
        options: Options {
            workers: 64,
            depth: 16,
            limit: 1_000_000_000,
            progress: true,
            quiet: true,
            witness: false,
            binary: true,
            ..USUAL
        },
    };
    let words =
        "satcluster solve --binary --progress --workers 64 --depth 16 --limit 1000000000 --cubes f.icnf -q -n f.cnf f.lrat";
    asks(&rt, rt.alloc(), words, full);
}

#[test]
fn a_service_with_its_defaults_and_with_all_its_words(rt: HostRuntime) {
    let plain = Request::Serve {
        port: 1,
        input: "f.cnf",
        cubes: None,
        proof: None,
        options: Options {
            depth: 8,
            limit: 1_000_000,
            ..USUAL
        },
    };
    asks(&rt, rt.alloc(), "satcluster serve --port 1 f.cnf", plain);
    let many = Request::Serve {
        port: 1,
        input: "f.cnf",
        cubes: None,
        proof: None,
        options: Options {
            workers: 9,
            depth: 10,
            limit: 1_000_000,
            ..USUAL
        },
    };
    asks(
        &rt,
        rt.alloc(),
        "satcluster serve --port 1 --workers 9 f.cnf",
        many,
    );
    let full = Request::Serve {
        port: 65_535,
        input: "f.cnf",
        cubes: Some("f.icnf"),
        proof: Some("f.lrat"),
        options: Options {
            workers: 1,
            depth: 0,
            limit: 1,
            session: u64::MAX,
            patience: Some(1_000_000_000),
            progress: true,
            rounds: true,
            quiet: true,
            witness: false,
            binary: true,
            ..USUAL
        },
    };
    let words =
        "satcluster serve --port 65535 --session 18446744073709551615 --patience 1000000000 --progress --rounds --workers 1 --depth 0 --limit 1 --cubes f.icnf -qn f.cnf f.lrat --binary";
    asks(&rt, rt.alloc(), words, full);
}

#[test]
fn a_worker_with_its_defaults_and_with_all_its_words(rt: HostRuntime) {
    let plain = Request::Work {
        port: 7000,
        input: "f.cnf",
        proof: None,
        options: USUAL,
    };
    asks(&rt, rt.alloc(), "satcluster work --port 7000 f.cnf", plain);
    let full = Request::Work {
        port: 7000,
        input: "f.cnf",
        proof: Some("f.lrat"),
        options: Options {
            number: 64,
            incarnation: 0,
            defs: 64,
            ahead: true,
            quiet: true,
            witness: false,
            binary: true,
            ..USUAL
        },
    };
    let words =
        "satcluster work --ahead --binary --defs 64 --incarnation 0 --number 64 --port 7000 -q -n f.cnf f.lrat";
    asks(&rt, rt.alloc(), words, full);
}

#[test]
fn a_session(rt: HostRuntime) {
    let alloc = rt.alloc();
    let plain = Request::Session {
        input: "-",
        proof: None,
        limit: None,
        witness: true,
    };
    asks(&rt, alloc, "satcluster session -", plain);
    let full = Request::Session {
        input: "f.icnf",
        proof: Some("f.lidrup"),
        limit: Some(1_000_000_000),
        witness: false,
    };
    let words = "satcluster session --limit 1000000000 -n f.icnf f.lidrup";
    asks(&rt, alloc, words, full);
}

#[test]
fn a_worker_of_a_cell(rt: HostRuntime) {
    let alloc = rt.alloc();
    let plain = Request::Share {
        input: "f.cnf",
        folder: "cell",
        cubes: None,
        leaf: None,
        seed: None,
        limit: None,
        turn: 300,
        printing: PRINTED,
    };
    asks(&rt, alloc, "satcluster share f.cnf cell", plain);
    let full = Request::Share {
        input: "f.cnf",
        folder: "cell",
        cubes: Some("f.icnf"),
        leaf: Some(u32::MAX),
        seed: Some(u64::MAX),
        limit: Some(1_000_000_000),
        turn: 1_000_000,
        printing: Printing {
            quiet: true,
            witness: false,
        },
    };
    let words =
        "satcluster share --cubes f.icnf --leaf 4294967295 --seed 18446744073709551615 --limit 1000000000 --turn 1000000 -q -n f.cnf cell";
    asks(&rt, alloc, words, full);
    refuses(&rt, alloc, "satcluster share --turn 0 f.cnf cell");
    refuses(&rt, alloc, "satcluster share --turn 1000001 f.cnf cell");
    refuses(&rt, alloc, "satcluster share f.cnf");
}

#[test]
fn a_woven_cell(rt: HostRuntime) {
    let alloc = rt.alloc();
    let plain = Request::Weave {
        input: "f.cnf",
        folder: "cell",
        log: "f.lrat",
        cubes: None,
        binary: false,
    };
    asks(&rt, alloc, "satcluster weave f.cnf cell f.lrat", plain);
    let full = Request::Weave {
        input: "f.cnf",
        folder: "cell",
        log: "f.lrat",
        cubes: Some("f.icnf"),
        binary: true,
    };
    let words = "satcluster weave --binary --cubes f.icnf f.cnf cell f.lrat";
    asks(&rt, alloc, words, full);
    refuses(&rt, alloc, "satcluster weave f.cnf cell");
}

#[test]
fn a_check_and_cubes_and_a_drill(rt: HostRuntime) {
    let alloc = rt.alloc();
    let check = Request::Check {
        input: "f.cnf",
        proof: "f.lrat",
        session: false,
        drat: false,
        progress: false,
    };
    asks(&rt, alloc, "satcluster check f.cnf f.lrat", check);
    let session = Request::Check {
        input: "f.icnf",
        proof: "f.lidrup",
        session: true,
        drat: false,
        progress: false,
    };
    asks(
        &rt,
        alloc,
        "satcluster check --session f.icnf f.lidrup",
        session,
    );
    let cubes = Request::Cubes {
        input: "f.cnf",
        depth: 16,
    };
    asks(&rt, alloc, "satcluster cubes --depth 16 f.cnf", cubes);
    let long = Request::Drill {
        input: "f.cnf",
        seed: u64::MAX,
        turns: 100_000,
    };
    asks(
        &rt,
        alloc,
        "satcluster drill --seed 18446744073709551615 --turns 100000 f.cnf",
        long,
    );
    let none = Request::Drill {
        input: "f.cnf",
        seed: 0,
        turns: 0,
    };
    asks(
        &rt,
        alloc,
        "satcluster drill --turns 0 --seed 0 f.cnf",
        none,
    );
}

#[test]
fn an_elaboration_and_a_check_of_drat(rt: HostRuntime) {
    let alloc = rt.alloc();
    let plain = Request::Elaborate {
        input: "f.cnf",
        drat: "f.drat",
        lrat: "f.lrat",
        progress: false,
        binary: false,
    };
    asks(
        &rt,
        alloc,
        "satcluster elaborate f.cnf f.drat f.lrat",
        plain,
    );
    let full = Request::Elaborate {
        input: "f.cnf",
        drat: "f.drat",
        lrat: "f.lrat",
        progress: true,
        binary: true,
    };
    let words = "satcluster elaborate --binary --progress f.cnf f.drat f.lrat";
    asks(&rt, alloc, words, full);
    let check = Request::Check {
        input: "f.cnf",
        proof: "f.drat",
        session: false,
        drat: true,
        progress: true,
    };
    let words = "satcluster check --progress --drat f.cnf f.drat";
    asks(&rt, alloc, words, check);
}

#[test]
fn a_leaf_is_cut_in_two(rt: HostRuntime) {
    let by_rule = Request::Split {
        input: "f.cnf",
        cubes: "f.icnf",
        leaf: u32::MAX,
        on: None,
    };
    let words = "satcluster cubes --cubes f.icnf --split 4294967295 f.cnf";
    asks(&rt, rt.alloc(), words, by_rule);
    let named = Request::Split {
        input: "f.cnf",
        cubes: "f.icnf",
        leaf: 1,
        on: Some(2_147_483_647),
    };
    let words = "satcluster cubes --on 2147483647 --split 1 f.cnf --cubes f.icnf";
    asks(&rt, rt.alloc(), words, named);
    let by_look = Request::SplitByLook {
        input: "f.cnf",
        cubes: "f.icnf",
        leaf: 7,
    };
    let words = "satcluster cubes --split 7 --look 2 --cubes f.icnf f.cnf";
    asks(&rt, rt.alloc(), words, by_look);
}

#[test]
fn cubes_look_ahead(rt: HostRuntime) {
    let look = Request::Look {
        input: "f.cnf",
        leaves: 65_536,
    };
    asks(&rt, rt.alloc(), "satcluster cubes --look 65536 f.cnf", look);
}

#[test]
fn cubes_are_completed(rt: HostRuntime) {
    let complete = Request::Complete {
        input: "f.cnf",
        list: "march.cubes",
    };
    let words = "satcluster cubes --complete march.cubes f.cnf";
    asks(&rt, rt.alloc(), words, complete);
}

#[test]
fn a_leaf_and_a_model(rt: HostRuntime) {
    let alloc = rt.alloc();
    let leaf = Request::Leaf {
        input: "f.cnf",
        cubes: "f.icnf",
        leaf: u32::MAX,
    };
    asks(
        &rt,
        alloc,
        "satcluster leaf --cubes f.icnf --leaf 4294967295 f.cnf",
        leaf,
    );
    let model = Request::Model {
        input: "f.cnf",
        output: "-",
    };
    asks(&rt, alloc, "satcluster model f.cnf -", model);
    let trim = Request::Trim {
        input: "f.cnf",
        proof: "f.lrat",
        out: "g.lrat",
        binary: true,
    };
    let words = "satcluster trim f.cnf --binary f.lrat g.lrat";
    asks(&rt, alloc, words, trim);
}

#[test]
fn a_lift_of_a_leaf_or_of_all(rt: HostRuntime) {
    let alloc = rt.alloc();
    let lift = Request::Lift {
        input: "f.cnf",
        cubes: "f.icnf",
        leaf: Some(1),
        to: None,
        lidrup: false,
        drat: false,
        proof: "l.lrat",
        fragment: "l.frag",
        binary: false,
    };
    asks(
        &rt,
        alloc,
        "satcluster lift --leaf 1 --cubes f.icnf f.cnf l.lrat l.frag",
        lift,
    );
    let all = Request::Lift {
        input: "f.cnf",
        cubes: "f.icnf",
        leaf: None,
        to: None,
        lidrup: true,
        drat: false,
        proof: "f.lidrup",
        fragment: "f.frag",
        binary: true,
    };
    asks(
        &rt,
        alloc,
        "satcluster lift --lidrup --binary --cubes f.icnf f.cnf f.lidrup f.frag",
        all,
    );
    let block = Request::Lift {
        input: "f.cnf",
        cubes: "f.icnf",
        leaf: Some(7),
        to: Some(9),
        lidrup: true,
        drat: false,
        proof: "f.lidrup",
        fragment: "f.frag",
        binary: false,
    };
    asks(
        &rt,
        alloc,
        "satcluster lift --lidrup --leaf 7 --to 9 --cubes f.icnf f.cnf f.lidrup f.frag",
        block,
    );
    // The program refuses what names neither, or one end of a block alone.
    let both = Request::Lift {
        input: "f.cnf",
        cubes: "f.icnf",
        leaf: Some(7),
        to: None,
        lidrup: true,
        drat: false,
        proof: "f.lidrup",
        fragment: "f.frag",
        binary: false,
    };
    asks(
        &rt,
        alloc,
        "satcluster lift --lidrup --leaf 7 --cubes f.icnf f.cnf f.lidrup f.frag",
        both,
    );
}

#[test]
fn a_lift_of_a_drat_proof(rt: HostRuntime) {
    let alloc = rt.alloc();
    let drat = Request::Lift {
        input: "f.cnf",
        cubes: "f.icnf",
        leaf: Some(7),
        to: None,
        lidrup: false,
        drat: true,
        proof: "l.drat",
        fragment: "l.frag",
        binary: true,
    };
    asks(
        &rt,
        alloc,
        "satcluster lift --leaf 7 --drat --binary --cubes f.icnf f.cnf l.drat l.frag",
        drat,
    );
    // The program refuses a DRAT proof of several leaves.
    let all_words = Request::Lift {
        input: "f.cnf",
        cubes: "f.icnf",
        leaf: None,
        to: Some(9),
        lidrup: true,
        drat: true,
        proof: "f.drat",
        fragment: "f.frag",
        binary: false,
    };
    asks(
        &rt,
        alloc,
        "satcluster lift --drat --lidrup --to 9 --cubes f.icnf f.cnf f.drat f.frag",
        all_words,
    );
}

#[test]
fn a_refutation_with_its_defaults_and_with_all_its_words(rt: HostRuntime) {
    let plain = Request::Refute {
        input: "f.cnf",
        cubes: "f.icnf",
        leaf: 3,
        to: None,
        grow: false,
        limit: 140_737_488_355_328,
        fragment: None,
        printing: PRINTED,
        binary: false,
    };
    asks(
        &rt,
        rt.alloc(),
        "satcluster refute --cubes f.icnf --leaf 3 f.cnf",
        plain,
    );
    let full = Request::Refute {
        input: "f.cnf",
        cubes: "f.icnf",
        leaf: 3,
        to: Some(9),
        grow: true,
        limit: 1,
        fragment: Some("l.frag"),
        printing: Printing {
            quiet: true,
            witness: false,
        },
        binary: true,
    };
    // The program refuses the binary form of a log that grows.
    let words =
        "satcluster refute --binary --cubes f.icnf --leaf 3 --to 9 --grow --limit 1 -q -n f.cnf l.frag";
    asks(&rt, rt.alloc(), words, full);
}

/// Flags may stand between the names of fragments, and `-` is a name.
#[test]
fn fragments_by_their_names(rt: HostRuntime) {
    let alloc = rt.alloc();
    let one = Request::Join {
        input: "f.cnf",
        cubes: "f.icnf",
        proof: Some("f.lrat"),
        fragments: vec![in alloc; "a"].expect(&rt, "memory"),
        printing: PRINTED,
        binary: false,
    };
    asks(
        &rt,
        alloc,
        "satcluster join --cubes f.icnf f.cnf f.lrat a",
        one,
    );
    let three = Request::Join {
        input: "f.cnf",
        cubes: "f.icnf",
        proof: Some("f.lrat"),
        fragments: vec![in alloc; "b", "-", "a"].expect(&rt, "memory"),
        printing: Printing {
            quiet: true,
            ..PRINTED
        },
        binary: true,
    };
    let words = "satcluster join f.cnf f.lrat b -q - --cubes f.icnf --binary a";
    asks(&rt, alloc, words, three);
}

/// With `--dry` no name is that of a proof.
#[test]
fn fragments_alone(rt: HostRuntime) {
    let alloc = rt.alloc();
    let two = Request::Join {
        input: "f.cnf",
        cubes: "f.icnf",
        proof: None,
        fragments: vec![in alloc; "f.lrat", "a"].expect(&rt, "memory"),
        printing: PRINTED,
        binary: false,
    };
    let words = "satcluster join --cubes f.icnf f.cnf f.lrat a --dry";
    asks(&rt, alloc, words, two);
}

/// A log and its receipt by their names; and receipts by theirs, between which a flag may stand.
#[test]
fn receipts_by_their_names(rt: HostRuntime) {
    let alloc = rt.alloc();
    let receipt = Request::Receipt {
        input: "f.cnf",
        cubes: "f.icnf",
        log: "-",
        receipt: "a",
    };
    let words = "satcluster receipt f.cnf --cubes f.icnf - a";
    asks(&rt, alloc, words, receipt);
    let cover = Request::Cover {
        input: "f.cnf",
        cubes: "f.icnf",
        receipts: vec![in alloc; "b", "-"].expect(&rt, "memory"),
        quiet: true,
    };
    let words = "satcluster cover --cubes f.icnf f.cnf b -q -";
    asks(&rt, alloc, words, cover);
}

/// Each line goes past a bound, lacks a word, names one twice, or names one that its command has not got.
const REFUSED: &[&'static str] = &[
    "satcluster",
    "satcluster decided f.cnf",
    "satcluster decide",
    "satcluster solve",
    "satcluster solve -q",
    "satcluster solve --workers 0 f.cnf",
    "satcluster solve --workers 65 f.cnf",
    "satcluster solve --limit 0 f.cnf",
    "satcluster solve --limit 1000000001 f.cnf",
    "satcluster solve --depth 17 f.cnf",
    "satcluster solve f.cnf --cubes",
    "satcluster solve -q -q f.cnf",
    "satcluster solve --port 7000 f.cnf",
    "satcluster cubes --depth 17 f.cnf",
    "satcluster check f.cnf",
    "satcluster serve f.cnf",
    "satcluster serve --port 7000",
    "satcluster serve --port 0 f.cnf",
    "satcluster serve --port 65536 f.cnf",
    "satcluster serve --port 7000 --session 18446744073709551616 f.cnf",
    "satcluster serve --port 7000 --number 1 f.cnf",
    "satcluster serve --port 7000 --patience 0 f.cnf",
    "satcluster serve --port 7000 --patience 1000000001 f.cnf",
    "satcluster solve --patience 1 f.cnf",
    "satcluster work --port 7000 --progress f.cnf",
    "satcluster work --port 7000 --rounds f.cnf",
    "satcluster solve --rounds f.cnf",
    "satcluster check --binary f.cnf f.lrat",
    "satcluster work f.cnf",
    "satcluster work --port 7000",
    "satcluster work --port 7000 --number 0 f.cnf",
    "satcluster work --port 7000 --number 65 f.cnf",
    "satcluster work --port 7000 --incarnation -1 f.cnf",
    "satcluster work --port 7000 --cubes f.icnf f.cnf",
    "satcluster drill --seed 7 f.cnf",
    "satcluster drill --turns 7 f.cnf",
    "satcluster drill --seed 7 --turns 7",
    "satcluster drill --seed 7 --turns 100001 f.cnf",
    "satcluster drill -q --seed 7 --turns 7 f.cnf",
    "satcluster cubes --split 1 f.cnf",
    "satcluster cubes --cubes f.icnf f.cnf",
    "satcluster cubes --on 1 f.cnf",
    "satcluster cubes --cubes f.icnf --on 1 f.cnf",
    "satcluster cubes --cubes f.icnf --split 1 --depth 4 f.cnf",
    "satcluster cubes --cubes f.icnf --split 0 f.cnf",
    "satcluster cubes --cubes f.icnf --split 4294967296 f.cnf",
    "satcluster cubes --cubes f.icnf --split 1 --on 0 f.cnf",
    "satcluster cubes --cubes f.icnf --split 1 --on 2147483648 f.cnf",
    "satcluster cubes --complete march.cubes --depth 4 f.cnf",
    "satcluster cubes --complete march.cubes --cubes f.icnf f.cnf",
    "satcluster cubes --look 0 f.cnf",
    "satcluster cubes --look 65537 f.cnf",
    "satcluster cubes --look 2 --depth 3 f.cnf",
    "satcluster cubes --look 2 --split 1 f.cnf",
    "satcluster cubes --cubes f.icnf --look 2 f.cnf",
    "satcluster cubes --cubes f.icnf --split 1 --look 3 f.cnf",
    "satcluster cubes --cubes f.icnf --split 1 --look 2 --on 1 f.cnf",
    "satcluster cubes --complete march.cubes --look 2 f.cnf",
    "satcluster cubes --complete march.cubes --split 1 f.cnf",
    "satcluster cubes --complete march.cubes --on 1 f.cnf",
    "satcluster cubes --complete march.cubes",
    "satcluster leaf --leaf 1 f.cnf",
    "satcluster leaf --cubes f.icnf f.cnf",
    "satcluster leaf --cubes f.icnf --leaf 0 f.cnf",
    "satcluster leaf --cubes f.icnf --leaf 4294967296 f.cnf",
    "satcluster refute --cubes f.icnf --leaf 1 --to 0 f.cnf",
    "satcluster refute --cubes f.icnf --leaf 1 --limit 140737488355329 f.cnf",
    "satcluster join --cubes f.icnf f.cnf f.lrat",
    "satcluster join f.cnf f.lrat l.frag",
    "satcluster join --dry --cubes f.icnf f.cnf",
    "satcluster join --dry --dry --cubes f.icnf f.cnf l.frag",
    "satcluster lift --cubes f.icnf --leaf 1 f.cnf l.lrat",
    "satcluster lift --cubes f.icnf --lidrup f.cnf l.lidrup",
    "satcluster lift --cubes f.icnf --leaf 0 f.cnf l.lrat l.frag",
    "satcluster lift --cubes f.icnf --lidrup --leaf 1 --to 0 f.cnf l.lidrup l.frag",
    "satcluster model f.cnf",
    "satcluster receipt --cubes f.icnf f.cnf l.frag",
    "satcluster receipt f.cnf l.frag l.receipt",
    "satcluster cover --cubes f.icnf f.cnf",
    "satcluster cover --cubes f.icnf -n f.cnf l.receipt",
    "satcluster solve --version",
];

#[test]
fn words_that_are_refused(rt: HostRuntime) {
    for line in REFUSED {
        refuses(&rt, rt.alloc(), line);
    }
}

/// A command that takes `--large`, and its other words.
const LARGE: &[(&'static str, &'static str)] = &[
    ("solve", "f.cnf f.lrat"),
    ("check", "f.cnf f.lrat"),
    ("check", "--session f.icnf f.lidrup"),
    ("model", "f.cnf answer"),
    ("trim", "f.cnf f.lrat g.lrat"),
    ("cubes", "--depth 3 f.cnf"),
    ("cubes", "--cubes f.icnf --split 1 f.cnf"),
    ("leaf", "--cubes f.icnf --leaf 1 f.cnf"),
    ("refute", "--cubes f.icnf --leaf 1 f.cnf f.log"),
    ("lift", "--cubes f.icnf --leaf 1 f.cnf f.lrat f.log"),
    ("join", "--cubes f.icnf f.cnf f.lrat f.log"),
    ("session", "f.icnf f.lidrup"),
];

/// A command that has no word for the large limits, and its other words.
const WRITTEN: &[(&'static str, &'static str)] = &[
    ("serve", "--port 4000 f.cnf"),
    ("work", "--port 4000 f.cnf"),
    ("drill", "--seed 0 --turns 0 f.cnf"),
    ("receipt", "--cubes f.icnf f.cnf f.log f.receipt"),
    ("cover", "--cubes f.icnf f.cnf f.receipt"),
];

/// A line of a command, the word, if there is one, and the other words.
fn line_of(rt: &impl Abort, alloc: Global, command: &str, word: &str, other: &str) -> String {
    let mut line = String::new(alloc);
    for part in ["satcluster ", command, word, " ", other] {
        line.push_str(part).expect(rt, "memory");
    }
    line
}

/// Whether words are taken, and if they are, whether they name the large limits.
fn is_large(rt: &impl Abort, alloc: Global, line: &str) -> Option<bool> {
    match command_of(alloc, &words_of(rt, alloc, line)) {
        Ok(Command { request: _, large }) => Some(large),
        Err(_) => None,
    }
}

#[test]
fn large_limits_are_named_by_a_word(rt: HostRuntime) {
    let alloc = rt.alloc();
    for (command, other) in LARGE {
        let plain = line_of(&rt, alloc, *command, "", *other);
        assert_eq!(&rt; is_large(&rt, alloc, plain.as_str()), Some(false));
        let large = line_of(&rt, alloc, *command, " --large", *other);
        assert_eq!(&rt; is_large(&rt, alloc, large.as_str()), Some(true));
    }
    for (command, other) in WRITTEN {
        let plain = line_of(&rt, alloc, *command, "", *other);
        assert_eq!(&rt; is_large(&rt, alloc, plain.as_str()), Some(false));
        let large = line_of(&rt, alloc, *command, " --large", *other);
        assert_eq!(&rt; is_large(&rt, alloc, large.as_str()), None);
    }
}

/// A line that asks for help, or for the version, and what the text has.
const HELPS: &[(&'static str, &'static str)] = &[
    ("satcluster --help", "<COMMAND>"),
    ("satcluster --help", "satcluster model f.cnf answer"),
    ("satcluster --version", "logic "),
    ("satcluster -V", "satcluster "),
    ("satcluster help solve", "[PROOF]"),
    ("satcluster solve --help", "<INPUT>"),
    ("satcluster solve --help", "--large"),
    ("satcluster check -h", "<PROOF>"),
    ("satcluster cubes -h", "from 0 to 16"),
    ("satcluster cubes -h", "--split <split>"),
    ("satcluster cubes -h", "--complete <complete>"),
    ("satcluster serve -h", "--port <port>"),
    ("satcluster work -h", "--ahead"),
    ("satcluster drill -h", "from 0 to 100000"),
    ("satcluster leaf -h", "--cubes <cubes>"),
    ("satcluster refute -h", "[default: 140737488355328]"),
    ("satcluster join -h", "<NAME>..."),
    ("satcluster join -h", "--dry"),
    ("satcluster lift -h", "<FRAGMENT>"),
    ("satcluster model -h", "<FILE>"),
    ("satcluster receipt -h", "<RECEIPT>"),
    ("satcluster cover -h", "<NAME>..."),
];

#[test]
fn a_help_is_no_answer(rt: HostRuntime) {
    for (line, part) in HELPS {
        helps(&rt, rt.alloc(), *line, *part);
    }
}
