//! The frame that a worker sends when it is polled.

ghost use Rattle.std.specs.Prelude.{◌≡◌, ◌<◌, ◌≤◌, ℕ, take, drop, length, IfOk, OnErr};
ghost use Rattle.frames.specs.declared.answer.Answer.TheVariants as answers;
ghost use Rattle.evidence.specs.Events.{Polled, FrameNeedsMemory, chunk, given_by};
ghost use Rattle.evidence.specs.Evidence.{finding_of};
ghost use Rattle.worker_core.specs.Worker.{WorkerStep, worker_frame, candidate_frame, work_frame};

use crate::work::Work;
use crate::worker::Worker;
use frames::{Answer, Chunk, Ending, Finding, Frame, ProofLength};
use packed_text::PackedText;
use std::alloc::{AllocError, Global};

impl Worker {
    /// Returns the worker's next frame, the first of these that applies: Piece from the noted offset, which is then cleared; Want for the
    /// candidate's next bytes; Done with the kept answer; Idle. If memory is refused, the worker is unchanged.
    pub fn poll(&mut self) -> Result<Frame, AllocError>
        ensures step { (worker : ℕ) → WorkerStep self.old (Polled worker) (given_by result) self.new }
    {
        let frame = self.frame()?;
        self.work.forget_note();
        Ok(frame)
    }

    /// Returns the frame that `poll` sends, and changes nothing.
    fn frame(&self) -> Result<Frame, AllocError>
        ensures ok { IfOk result (λ frame. frame ≡ worker_frame self.now) }
        ensures err { OnErr result (FrameNeedsMemory (worker_frame self.now)) }
    {
        match &self.work {
            Work::Found {
                name,
                bytes,
                noted: Some(offset),
                ..
            } => {
                let piece = piece_at(self.alloc, bytes, *offset)?;
                Ok(Frame::Piece {
                    attempt: name.attempt(self.number, self.incarnation),
                    offset: *offset,
                    bytes: piece,
                })
            }
            Work::Free | Work::Pending { .. } | Work::Limited { .. } | Work::Found { .. } => {
                Ok(self.candidate_frame())
            }
        }
    }

    /// Returns Want for the candidate's next bytes if there is a candidate; else Done with the kept answer, or Idle.
    fn candidate_frame(&self) -> Frame
        ensures { result ≡ candidate_frame self.now self.now.candidate }
    {
        match &self.candidate {
            Some(candidate) => {
                // `length` ensures that the announced length fits a frame.
                let _ = candidate.evidence.finding.length();
                Frame::Want {
                    session: candidate.session,
                    worker: self.number,
                    offset: candidate.evidence.bytes.len() as u32,
                }
            }
            None => self.work_frame(),
        }
    }

    /// Returns Done with the kept answer, or Idle if no answer is kept.
    fn work_frame(&self) -> Frame
        ensures { result ≡ work_frame self.now self.now.work }
    {
        match &self.work {
            Work::Free | Work::Pending { .. } => Frame::Idle {
                worker: self.number,
                incarnation: self.incarnation,
            },
            Work::Limited { name } => Frame::Done {
                attempt: name.attempt(self.number, self.incarnation),
                ending: Ending::Limit,
            },
            Work::Found {
                name,
                answer,
                bytes,
                ..
            } => {
                // `vars` ensures that the number of variables fits a frame.
                let _ = self.formula.vars();
                Frame::Done {
                    attempt: name.attempt(self.number, self.incarnation),
                    ending: Ending::Decided(finding(*answer, bytes.len() as u32)),
                }
            }
        }
    }
}

/// Returns the bytes from `offset` on, as many as one frame carries: at most 4,000.
fn piece_at(alloc: Global, bytes: &PackedText, offset: u32) -> Result<Chunk, AllocError>
    requires { offset < length bytes.now }
    ensures { IfOk result (λ piece. piece ≡ take chunk (drop offset bytes.now)) }
{
    let piece = bytes.read(alloc, offset as usize, Chunk::LONGEST)?;
    Ok(Chunk::from_vec(piece))
}

/// Makes the finding that a Done frame announces: the answer, with the length in bytes of its
/// evidence.
fn finding(answer: Answer, length: u32) -> Finding
    requires { answer ≡ answers.Refuted → 1 ≤ length }
    ensures { result ≡ finding_of answer length }
{
    match answer {
        Answer::Refuted => Finding::Refuted {
            length: ProofLength::new(length),
        },
        Answer::Assignment => Finding::Assignment { length },
    }
}
