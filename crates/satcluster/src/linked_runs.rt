//! `solve`, `serve` and `work`: opens the links, runs over them, and writes the proof.

ghost use Rattle.std.specs.Prelude.{IfOk};
ghost use Rattle.command_line.specs.Options.{AreOptions};
ghost use Rattle.node_main.specs.RunStart.{IsStart};

use crate::drafts::{test_named, write_proof};
use crate::files::{Machine, no_memory, read_cubes, read_formula};
use crate::listener::accept_workers;
use crate::progress::Shown;
use crate::status_line::Showing;
use commands::{Target, print, refused};
use connections::Connections;
use dimacs::Limits;
use links::{Counted, CountedArrivals, EventCarrier, Loopback, WorkerEnd};
use node_main::{
    Options, Refusal, Report, Start, begin, run_serve_from, run_solve_within, run_work_of,
    serve_arrivals,
};
use std::alloc::Global;
use std::io;
use std::net::{Ipv4Addr, Net, SocketAddr, TcpListener};
use std::rt::Runtime;

/// The files of a run over links.
#[derive(Clone, Copy)]
pub(crate) struct Files<'a> {
    /// The path of the formula.
    pub(crate) input: &'a str,
    /// The path of the tree of its cubes, if there is one.
    pub(crate) cubes: Option<&'a str>,
    /// The path of the proof, if it is to be written.
    pub(crate) proof: Option<&'a str>,
    /// Whether the proof is written in binary form.
    pub(crate) binary: bool,
}

/// Answers the refusal for an I/O error of a link: out of memory, or else `Links`.
fn not_linked(error: io::Error) -> Refusal {
    refused(error, Refusal::Links)
}

/// Lends the text of the cubes, if cubes were named.
fn lent(cubes: &Option<Vec<u8>>) -> Option<&[u8]> {
    match cubes {
        Some(bytes) => Some(bytes.as_slice()),
        None => None,
    }
}

/// Writes the proof of a report, if it has one and a file is named for it, and answers the report. It errs if the proof cannot be written.
fn keep_proof<R: Runtime + AllocGlobal>(
    rt: &R,
    report: Report,
    files: &Files,
) -> Result<Report, Refusal> {
    match (files.proof, &report.proof) {
        (Some(path), Some(proof)) => {
            let target = Target {
                path,
                binary: files.binary,
            };
            write_proof(rt, target, proof, files.input, files.cubes)?;
        }
        _ => {}
    }
    Ok(report)
}

/// Answers where the progress of a run is shown: `showing` if the words ask for progress, else nowhere.
fn shown_where(options: &Options, showing: Showing) -> Showing {
    if options.progress {
        showing
    } else {
        Showing::Nowhere
    }
}

/// Decides the formula in a file, which is read within these limits, by workers in this process, over links of its own, writes the proof,
/// and answers the report.
pub(crate) fn solve<R: Runtime + AllocGlobal + Net>(
    rt: &R,
    limits: Limits,
    files: &Files,
    options: &Options,
    showing: Showing,
) -> Result<Report, Refusal>
    requires { AreOptions options.now }
{
    let found = read_formula(rt, limits, files.input)?;
    let cubes = read_cubes(rt, files.cubes)?;
    let carrier = Loopback::open(rt, rt.alloc(), options.workers).map_err(not_linked)?;
    if found.is_ok() && cubes.is_none() {
        test_named(rt, files.proof)?; // a fault of the cubes, which the run finds, is told first
    }
    let mut links = Counted::new(Shown::new(rt, carrier, shown_where(options, showing)));
    let run = run_solve_within(rt.alloc(), found, limits, lent(&cubes), options, &mut links);
    links.carrier().end();
    keep_proof(rt, run.map_err(no_memory)?, files)
}

/// How many connections there may be besides those of the workers; also the most workers for which room is kept.
const SPARE: u32 = 64;

/// Opens a listener at the port, with room for a connection of each worker (for 64 workers at most) and 64 more.
fn open_listener<R: Runtime + Net>(
    rt: &R,
    alloc: Global,
    port: u16,
    workers: u32,
) -> io::Result<Connections<&R>> {
    let places = workers.min(SPARE) + SPARE;
    Connections::open(rt, alloc, rt, port, places as u8)
}

/// Reads the formula and the cubes, and answers with what a run over them begins: the formula with the tree by which it is split, or a
/// report.
fn read_start<R: Runtime + AllocGlobal>(
    rt: &R,
    files: &Files,
    options: &Options,
) -> Result<Start, Refusal>
    requires { AreOptions options.now }
    ensures { IfOk result (IsStart options.now) }
{
    let found = read_formula(rt, Limits::written(), files.input)?;
    let cubes = read_cubes(rt, files.cubes)?;
    let start = begin(rt.alloc(), found, lent(&cubes), options).map_err(no_memory)?;
    if let Start::With(_, _) = &start {
        test_named(rt, files.proof)?;
    }
    Ok(start)
}

/// Serves a run over these links, and answers a report without text. At the verdict the proof is
/// written and the answer printed; then the workers get the verdict. If the answer cannot be
/// printed, the status is 1.
fn serve_over<R: Runtime + AllocGlobal, S: EventCarrier>(
    rt: &R,
    start: Start,
    files: &Files,
    options: &Options,
    links: &mut CountedArrivals<Shown<R, S>>,
) -> Result<Report, Refusal>
    requires options { AreOptions options.now }
    requires start { IsStart options.now start }
{
    let run = serve_arrivals(rt.alloc(), start, options, links);
    links.carrier().end();
    let mut service = run.map_err(no_memory)?;
    if let (Some(path), Some(proof)) = (files.proof, service.proof()) {
        let target = Target {
            path,
            binary: files.binary,
        };
        write_proof(rt, target, proof, files.input, files.cubes)?;
    }
    let status = match print(&mut io::writer(rt), service.text()) {
        Ok(()) => service.status(),
        Err(_) => 1,
    };
    let _ = service.hand_out(links);
    Ok(Report {
        stdout: Vec::new(rt.alloc()),
        status,
        proof: None,
    })
}

/// Decides the formula in a file by workers that connect to the port, come and go. The port is opened before the files are read, and a
/// fault of a file is told before a worker is linked.
fn serve_by_arrivals<R: Runtime + AllocGlobal + Net>(
    rt: &R,
    port: u16,
    files: &Files,
    options: &Options,
    showing: Showing,
) -> Result<Report, Refusal>
    requires { AreOptions options.now }
{
    let listener = open_listener(rt, rt.alloc(), port, options.workers).map_err(not_linked)?;
    let start = read_start(rt, files, options)?;
    let mut links = CountedArrivals::new(Shown::new(rt, listener, shown_where(options, showing)));
    serve_over(rt, start, files, options, &mut links)
}

/// Decides the formula in a file by workers that connect to the port, in rounds: it begins when all workers are there, takes them in turns,
/// and takes none again that is lost. The listener is kept to the end, so that a worker that comes late waits, and is not refused.
fn serve_in_rounds<R: Runtime + AllocGlobal + Net>(
    rt: &R,
    port: u16,
    files: &Files,
    options: &Options,
    showing: Showing,
) -> Result<Report, Refusal>
    requires { AreOptions options.now }
{
    let at = SocketAddr::from((Ipv4Addr::LOCALHOST, port));
    let listener = TcpListener::bind(rt, at).map_err(not_linked)?;
    let start = match read_start(rt, files, options)? {
        Start::Refused(report) => return Ok(report),
        start => start,
    };
    let carrier = accept_workers::<R>(rt.alloc(), &listener, options.workers)?;
    let mut links = Counted::new(Shown::new(rt, carrier, shown_where(options, showing)));
    let run = run_serve_from(rt.alloc(), start, options, &mut links);
    links.carrier().end();
    keep_proof(rt, run.map_err(no_memory)?, files)
}

/// Decides the formula in a file by workers that connect to the port: in rounds if the words ask for it, else by arrivals.
pub(crate) fn serve<R: Runtime + AllocGlobal + Net>(
    rt: &R,
    port: u16,
    files: &Files,
    options: &Options,
    showing: Showing,
) -> Result<Report, Refusal>
    requires { AreOptions options.now }
{
    if options.rounds {
        serve_in_rounds(rt, port, files, options, showing)
    } else {
        serve_by_arrivals(rt, port, files, options, showing)
    }
}

/// Works for the coordinator that serves the formula at the port, writes the proof if it gets one, and answers the report.
pub(crate) fn work<R: Runtime + AllocGlobal + Net>(
    rt: &R,
    port: u16,
    files: &Files,
    options: &Options,
) -> Result<Report, Refusal>
    requires { AreOptions options.now }
{
    let found = read_formula(rt, Limits::written(), files.input)?;
    let carrier = WorkerEnd::connect(rt, port).map_err(not_linked)?;
    if found.is_ok() {
        test_named(rt, files.proof)?;
    }
    let mut links = Counted::new(carrier);
    let run = run_work_of(rt.alloc(), found, options, &mut links);
    keep_proof(rt, run.map_err(no_memory)?, files)
}
