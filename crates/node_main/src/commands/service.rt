//! `serve` over links that come and go: a coordinator decides a formula with workers of other processes.

ghost use Rattle.std.specs.Prelude.{◌≡◌, ◌<◌, ◌≤◌, ℕ, All, List, IfOk, MatchOption, OnOk, Option, None, Some, option_map};
ghost use Rattle.dimacs.specs.logic.Limits.{written};
ghost use Rattle.command_line.specs.Options.{AreOptions};
ghost use Rattle.cube_split.specs.Pairs.{IsBaseWith};
ghost use Rattle.dimacs.specs.logic.Cnf.{Cnf};
ghost use Rattle.dimacs.specs.logic.Literal.{IsWithin};
ghost use Rattle.evidence.specs.Jobs.{IsOverBase};
ghost use Rattle.event_loop.specs.Accounts.{AreBounded, EachCloses, OnceEach, nobody};
ghost use Rattle.event_loop.specs.Run.{verdict_of};
ghost use Rattle.node_main.specs.Decisions.{Decides};
ghost use Rattle.node_main.specs.ServiceReports.{HandsOutBy, HasEndedBy, links_of, proof_in, report_of};
ghost use Rattle.node_main.specs.RunCalls.{WasServed};
ghost use Rattle.node_main.specs.SolveReports.{Solves};
ghost use Rattle.node_main.specs.RunStart.{IsStart, Starts};
ghost use Rattle.proof_check.specs.Truth.{IsTrueReport};

use crate::plans::service_plan;
use crate::start::{Start, begin};
use crate::verdict_report::reported;
use command_line::Options;
use cube_split::Opened;
use event_loop::Run;
use icnf::Tree;
use links::Arrivals;
use lrat_check::{Verdict, accepted_proofs_are_sound};
use packed_text::PackedText;
use reports::Report;
use std::alloc::{AllocError, Global};

/// The report of a coordinator whose run has ended, and the coordinator, which can still hand its verdict out.
#[derive(Drop)]
pub struct Service {
    /// The report, without the proof that the coordinator holds.
    report: Report,
    /// The run of the coordinator; `None` if the input or the cubes were refused.
    run: Option<Run>,
}

/// The proof that a coordinator holds as its verdict; `None` if it holds none or an assignment.
fn proof_of(run: &Run) -> Option<&PackedText>
    ensures { MatchOption result (proof_in (verdict_of run.now) ≡ None) (λ text. proof_in (verdict_of run.now) ≡ Some text.now) }
{
    match run.verdict() {
        Verdict::Proof(text) => Some(text),
        _ => None,
    }
}

impl Service {
    /// The text that the service prints.
    #[tactic(auto, using(crate::proofs::ServiceLemmas::same_text))]
    pub fn text(&self) -> &[u8]
        ensures { result.now ≡ (report_of self.now).stdout.items }
    {
        &self.report.stdout
    }

    /// The exit status of the service.
    #[tactic(auto, using(crate::proofs::ServiceLemmas::same_status))]
    pub fn status(&self) -> u8
        ensures { result ≡ (report_of self.now).status }
    {
        self.report.status
    }

    /// The proof that is to be written; `None` if the formula was not refuted.
    pub fn proof(&self) -> Option<&PackedText>
        ensures { MatchOption result ((report_of self.now).proof ≡ None) (λ text. (report_of self.now).proof ≡ Some text.now) }
    {
        match &self.run {
            Some(run) => proof_of(run),
            None => self.report.proof.as_ref(),
        }
    }

    /// Hands the verdict out to the workers that are connected, as long as they ask for it. Nothing is done without a verdict. An error is
    /// want of memory.
    pub fn hand_out<A: Arrivals>(&mut self, links: &mut A) -> Result<(), AllocError>
        ensures most { AreBounded (A.arrival_count links.old) (A.arrival_count links.new) (A.call_count links.old) (A.call_count links.new) }
        ensures handed { OnOk result (HandsOutBy self.old (A.call_count links.old) (A.call_count links.new) (A.arrival_count links.old) (A.arrival_count links.new) (A.has_ended links.new) self.new) }
        // A link that refuses a call is closed: at each place refusals and open connections
        // together rise by no more than the links that begin there.
        ensures closes { EachCloses (links_of self.old) (links_of self.new) (A.link_count links.old) (A.link_count links.new) (A.refusal_count links.old) (A.refusal_count links.new) }
    {
        match &mut self.run {
            Some(run) => run.hand_out(links),
            None => Ok(()),
        }
    }
}

/// Decides a formula that was split, over links that come and go, and reports the verdict. An error is want of memory.
fn decide_arrivals<A: Arrivals>(
    alloc: Global,
    opened: Opened,
    tree: Tree,
    options: &Options,
    links: &mut A,
) -> Result<Service, AllocError>
    requires inside { (B : Cnf) → IsBaseWith opened.formula opened.definitions.wanted B → All (IsOverBase B) tree }
    requires narrow { 1000000 < opened.formula.vars → All (All (IsWithin 2000000)) tree }
    requires options { AreOptions options.now }
    ensures decides { IfOk result (λ s. Decides opened.formula options.now (report_of s)) }
    ensures used { IfOk result (λ s. WasServed (A.call_count links.old) (A.call_count links.new) (report_of s)) }
    ensures most { AreBounded (A.arrival_count links.old) (A.arrival_count links.new) (A.call_count links.old) (A.call_count links.new) }
    ensures each { OnceEach (A.link_count links.old) (A.link_count links.new) (A.refusal_count links.old) (A.refusal_count links.new) }
    ensures ended { IfOk result (λ s. HasEndedBy (A.arrival_count links.old) (A.arrival_count links.new) (A.has_ended links.new) s) }
    // A link that refuses a call is closed: at each place refusals and open connections together
    // rise by no more than the links that begin there.
    ensures closes { IfOk result (λ s. EachCloses nobody (links_of s) (A.link_count links.old) (A.link_count links.new) (A.refusal_count links.old) (A.refusal_count links.new)) }
{
    let run = match event_loop::decide_of(alloc, opened, tree, &service_plan(options), links) {
        Ok(run) => run,
        Err(error) => return Err(error),
    };
    match reported(alloc, run.verdict(), options) {
        Ok(report) => Ok(Service {
            report,
            run: Some(run),
        }),
        Err(error) => Err(error),
    }
}

/// Reads a formula, splits it as `run_solve` does, and decides it over links that come and go. It returns at the verdict, before that is
/// handed out. The error stands for the report `c no memory`, status 1.
pub fn run_serve_arrivals<A: Arrivals>(
    alloc: Global,
    input: &[u8],
    cubes: Option<&[u8]>,
    options: &Options,
    links: &mut A,
) -> Result<Service, AllocError>
    requires { AreOptions options.now }
    ensures report { IfOk result (λ s. Solves written input.now (option_map (λ t. t.now) cubes.entry) options.now (report_of s)) }
    ensures truth { IfOk result (λ s. IsTrueReport written input.now (report_of s)) }
    ensures used { IfOk result (λ s. WasServed (A.call_count links.old) (A.call_count links.new) (report_of s)) }
    ensures most { AreBounded (A.arrival_count links.old) (A.arrival_count links.new) (A.call_count links.old) (A.call_count links.new) }
    ensures each { OnceEach (A.link_count links.old) (A.link_count links.new) (A.refusal_count links.old) (A.refusal_count links.new) }
    ensures ended { IfOk result (λ s. HasEndedBy (A.arrival_count links.old) (A.arrival_count links.new) (A.has_ended links.new) s) }
    // A link that refuses a call is closed: at each place refusals and open connections together
    // rise by no more than the links that begin there.
    ensures closes { IfOk result (λ s. EachCloses nobody (links_of s) (A.link_count links.old) (A.link_count links.new) (A.refusal_count links.old) (A.refusal_count links.new)) }
{
    match begin(alloc, dimacs::read(alloc, input), cubes, options) {
        Ok(start) => serve_arrivals(alloc, start, options, links),
        Err(error) => Err(error),
    }
}

/// Decides the formula of a start over links that come and go. It returns at the verdict, before that is handed out. The error stands for
/// the report `c no memory`, status 1.
pub fn serve_arrivals<A: Arrivals>(
    alloc: Global,
    start: Start,
    options: &Options,
    links: &mut A,
) -> Result<Service, AllocError>
    requires options { AreOptions options.now }
    requires start { IsStart options.now start }
    ensures report { (input : List ℕ) (cubes : Option (List ℕ)) → Starts written input cubes options.now start → IfOk result (λ s. Solves written input cubes options.now (report_of s)) }
    ensures truth { (input : List ℕ) (cubes : Option (List ℕ)) → Starts written input cubes options.now start → IfOk result (λ s. IsTrueReport written input (report_of s)) }
    ensures used { IfOk result (λ s. WasServed (A.call_count links.old) (A.call_count links.new) (report_of s)) }
    ensures most { AreBounded (A.arrival_count links.old) (A.arrival_count links.new) (A.call_count links.old) (A.call_count links.new) }
    ensures each { OnceEach (A.link_count links.old) (A.link_count links.new) (A.refusal_count links.old) (A.refusal_count links.new) }
    ensures ended { IfOk result (λ s. HasEndedBy (A.arrival_count links.old) (A.arrival_count links.new) (A.has_ended links.new) s) }
    // A link that refuses a call is closed: at each place refusals and open connections together
    // rise by no more than the links that begin there.
    ensures closes { IfOk result (λ s. EachCloses nobody (links_of s) (A.link_count links.old) (A.link_count links.new) (A.refusal_count links.old) (A.refusal_count links.new)) }
{
    accepted_proofs_are_sound();
    let (opened, tree) = match start {
        Start::With(opened, tree) => (opened, tree),
        Start::Refused(report) => return Ok(Service { report, run: None }),
    };
    decide_arrivals(alloc, opened, tree, options, links)
}
