//! The files of a request, and which of them has a fault.

use crate::standard_input::is_dash;
use explanations::{File, Subject};
use node_main::Request;

/// The files of a request, and as what they are read.
#[derive(Clone, Copy)]
pub(crate) struct Paths<'a> {
    /// The path of the formula, or of the events of a session.
    pub(crate) input: &'a str,
    /// As what `input` is read.
    pub(crate) input_as: Subject,
    /// The path of the cubes.
    pub(crate) cubes: Option<&'a str>,
    /// The path of the third file that is read: a proof, a log or an answer.
    pub(crate) read: Option<&'a str>,
    /// As what `read` is read.
    pub(crate) read_as: Subject,
    /// The path of the file that is written.
    pub(crate) written: Option<&'a str>,
    /// The names of the files that are joined, or of the receipts.
    pub(crate) joined: &'a [&'a str],
}

impl<'a> Paths<'a> {
    /// The files of a command that reads a formula, perhaps cubes, and perhaps writes a file.
    fn of(input: &'a str, cubes: Option<&'a str>, written: Option<&'a str>) -> Paths<'a> {
        Paths {
            input,
            input_as: Subject::Input,
            cubes,
            read: None,
            read_as: Subject::Proof,
            written,
            joined: &[],
        }
    }

    /// Adds the third file that the command reads: a proof, an answer, or the like.
    fn reading(self, read: &'a str, read_as: Subject) -> Paths<'a> {
        let Paths {
            input,
            input_as,
            cubes,
            read: _,
            read_as: _,
            written,
            joined,
        } = self;
        Paths {
            input,
            input_as,
            cubes,
            read: Some(read),
            read_as,
            written,
            joined,
        }
    }
}

/// The files of `check --session`: the events of a session, and its proof, which is checked.
fn session_paths<'a>(events: &'a str, proof: &'a str) -> Paths<'a> {
    Paths {
        input: events,
        input_as: Subject::Events,
        cubes: None,
        read: Some(proof),
        read_as: Subject::Session,
        written: None,
        joined: &[],
    }
}

/// The files of `session`: the events of a session, and its proof, which is written.
fn answered_paths<'a>(events: &'a str, proof: Option<&'a str>) -> Paths<'a> {
    Paths {
        input: events,
        input_as: Subject::Events,
        cubes: None,
        read: None,
        read_as: Subject::Session,
        written: proof,
        joined: &[],
    }
}

/// Answers the files of a request, and as what they are read.
pub(crate) fn paths_of<'a>(request: &'a Request<'_>) -> Paths<'a> {
    match *request {
        Request::Session { input, proof, .. } => answered_paths(input, proof),
        Request::Decide { input, proof, .. } => Paths::of(input, None, proof),
        Request::Solve {
            input,
            cubes,
            proof,
            ..
        } => Paths::of(input, cubes, proof),
        Request::Serve {
            input,
            cubes,
            proof,
            ..
        } => Paths::of(input, cubes, proof),
        Request::Work { input, proof, .. } => Paths::of(input, None, proof),
        Request::Check {
            input,
            proof,
            session: true,
            ..
        } => session_paths(input, proof),
        Request::Check {
            input,
            proof,
            drat: true,
            ..
        } => Paths::of(input, None, None).reading(proof, Subject::DratProof),
        Request::Check { input, proof, .. } => {
            Paths::of(input, None, None).reading(proof, Subject::Proof)
        }
        Request::Share { input, cubes, .. } => Paths::of(input, cubes, None),
        Request::Weave {
            input,
            cubes,
            log,
            ..
        } => Paths::of(input, cubes, Some(log)),
        Request::Cubes { input, .. } => Paths::of(input, None, None),
        Request::Look { input, .. } => Paths::of(input, None, None),
        Request::Drill { input, .. } => Paths::of(input, None, None),
        Request::Split { input, cubes, .. } => Paths::of(input, Some(cubes), None),
        Request::SplitByLook { input, cubes, .. } => Paths::of(input, Some(cubes), None),
        Request::Complete { input, list } => Paths::of(input, Some(list), None),
        Request::Leaf { input, cubes, .. } => Paths::of(input, Some(cubes), None),
        Request::Refute {
            input,
            cubes,
            fragment,
            ..
        } => Paths::of(input, Some(cubes), fragment),
        Request::Join {
            input,
            cubes,
            proof,
            ref fragments,
            ..
        } => Paths {
            input,
            input_as: Subject::Input,
            cubes: Some(cubes),
            read: None,
            read_as: Subject::Proof,
            written: proof,
            joined: fragments.as_slice(),
        },
        Request::Lift {
            input,
            cubes,
            lidrup,
            drat,
            proof,
            fragment,
            ..
        } => {
            let read_as = if drat {
                Subject::DratProof
            } else if lidrup {
                Subject::Session
            } else {
                Subject::Proof
            };
            Paths::of(input, Some(cubes), Some(fragment)).reading(proof, read_as)
        }
        Request::Model { input, output } => {
            Paths::of(input, None, None).reading(output, Subject::Answer)
        }
        Request::Elaborate { input, drat, .. } => {
            Paths::of(input, None, None).reading(drat, Subject::DratProof)
        }
        Request::Trim {
            input,
            proof,
            out,
            ..
        } => Paths::of(input, None, Some(out)).reading(proof, Subject::Proof),
        Request::Receipt {
            input,
            cubes,
            log,
            receipt,
        } => Paths::of(input, Some(cubes), Some(receipt)).reading(log, Subject::Proof),
        Request::Cover {
            input,
            cubes,
            ref receipts,
            ..
        } => Paths {
            input,
            input_as: Subject::Input,
            cubes: Some(cubes),
            read: None,
            read_as: Subject::Proof,
            written: None,
            joined: receipts.as_slice(),
        },
    }
}

/// Answers the path of the file that has a fault, and as what it is read; `None` if the request has no such file.
pub(crate) fn faulty<'a>(paths: &Paths<'a>, file: File) -> Option<(&'a str, Subject)> {
    match file {
        File::Input => Some((paths.input, paths.input_as)),
        File::Cubes => Some((paths.cubes?, Subject::Cubes)),
        File::Own | File::Proof | File::Log => Some((paths.read?, paths.read_as)),
        File::Joined(number) => Some((joined_name(paths, number), Subject::Proof)),
    }
}

/// Answers the name of the joined file of this number, from 1; an empty name if standard input lists the names or there are not so many.
pub(crate) fn joined_name<'a>(paths: &Paths<'a>, number: u64) -> &'a str {
    let place = (number as usize).saturating_sub(1);
    match paths.joined.get(place) {
        Some(name) if !is_dash(name) => name,
        _ => "",
    }
}
