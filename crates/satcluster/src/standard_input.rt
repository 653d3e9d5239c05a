//! Where the name `-` stands for standard input, and whether the words name it as they may.

use node_main::Request;

/// Whether a name stands for standard input; a file of that name is `./-`.
pub(crate) fn is_dash(name: &str) -> bool {
    name == "-"
}

/// Whether a name that may be left out is given and stands for standard input.
fn is_some_dash(name: Option<&str>) -> bool {
    match name {
        Some(name) => is_dash(name),
        None => false,
    }
}

/// Whether at least two of these flags are true.
fn are_two(first: bool, second: bool, third: bool) -> bool {
    (first && second) || (first && third) || (second && third)
}

/// Whether one of several names stands for standard input. A single `-` is another case: it stands for the names that standard input lists.
fn is_one_of_several(names: &[&str]) -> bool {
    names.len() > 1 && names.iter().any(|name| *name == "-")
}

/// Whether a command that reads a formula, cubes, and the files of these names would read standard
/// input twice, or has it as one of several files.
fn are_read_twice(input: &str, cubes: &str, names: &[&str]) -> bool {
    let lists = names.len() == 1 && is_dash(names[0]);
    is_one_of_several(names) || are_two(is_dash(input), is_dash(cubes), lists)
}

/// Whether a request would read standard input twice.
fn is_read_twice(request: &Request) -> bool {
    match *request {
        Request::Solve { input, cubes, .. } => is_dash(input) && is_some_dash(cubes),
        Request::Serve { input, cubes, .. } => is_dash(input) && is_some_dash(cubes),
        Request::Check { input, proof, .. } => is_dash(input) && is_dash(proof),
        Request::Elaborate { input, drat, .. } => is_dash(input) && is_dash(drat),
        Request::Trim { input, proof, .. } => is_dash(input) && is_dash(proof),
        Request::Split { input, cubes, .. } => is_dash(input) && is_dash(cubes),
        Request::SplitByLook { input, cubes, .. } => is_dash(input) && is_dash(cubes),
        Request::Leaf { input, cubes, .. } => is_dash(input) && is_dash(cubes),
        Request::Refute { input, cubes, .. } => is_dash(input) && is_dash(cubes),
        Request::Share { input, cubes, .. } => is_dash(input) && is_some_dash(cubes),
        Request::Weave { input, cubes, .. } => is_dash(input) && is_some_dash(cubes),
        Request::Complete { input, list } => is_dash(input) && is_dash(list),
        Request::Model { input, output } => is_dash(input) && is_dash(output),
        Request::Lift {
            input,
            cubes,
            proof,
            ..
        } => are_two(is_dash(input), is_dash(cubes), is_dash(proof)),
        Request::Receipt {
            input,
            cubes,
            log,
            ..
        } => are_two(is_dash(input), is_dash(cubes), is_dash(log)),
        Request::Join {
            input,
            cubes,
            ref fragments,
            ..
        } => are_read_twice(input, cubes, fragments),
        Request::Cover {
            input,
            cubes,
            ref receipts,
            ..
        } => are_read_twice(input, cubes, receipts),
        _ => false,
    }
}

/// Whether a request would write to a file under the name of standard input.
fn is_written(request: &Request) -> bool {
    match *request {
        Request::Decide { proof, .. } => is_some_dash(proof),
        Request::Solve { proof, .. } => is_some_dash(proof),
        Request::Serve { proof, .. } => is_some_dash(proof),
        Request::Work { proof, .. } => is_some_dash(proof),
        Request::Refute { fragment, .. } => is_some_dash(fragment),
        Request::Join { proof, .. } => is_some_dash(proof),
        Request::Session { proof, .. } => is_some_dash(proof),
        Request::Lift { fragment, .. } => is_dash(fragment),
        Request::Elaborate { lrat, .. } => is_dash(lrat),
        Request::Trim { out, .. } => is_dash(out),
        Request::Receipt { receipt, .. } => is_dash(receipt),
        Request::Weave { log, .. } => is_dash(log),
        _ => false,
    }
}

/// Whether a request names standard input, `-`, at most once, and not as a file that is written.
pub(crate) fn is_sound(request: &Request) -> bool {
    !is_read_twice(request) && !is_written(request)
}
