//! One connection of a coordinator to a worker: its state, the frames that came and are not delivered yet, and its timeout. A tick is a
//! second.

ghost use Rattle.std.specs.Prelude.{◌≡◌, [], None, Ok, IfOk, OnOk};
ghost use Rattle.event_loop.specs.declared.connection.State.TheVariants.{Handshake, Idle, Pending, Working};

use frames::{Ending, Frame, FrameFault, Reader, WorkerNumber};
use std::alloc::{AllocError, Global};

/// Timeout in ticks: for the first frame of a connection, for a queued worker to be registered, and for a pending reply.
const REPLY_TIMEOUT: u64 = 30;

/// At this many tasks in a row that were answered with Idle, the connection is closed. A worker that takes no task answers each with Idle;
/// one that sends before it works answers with Idle at most 255 times before it searches.
const MOST_DECLINED: u32 = 300;

/// Why a connection cannot be used any more.
#[derive(Clone, Copy, Debug, PartialEq, Eq)]
pub(crate) enum Broken {
    /// The link refused bytes or ended, the bytes that came are no frames, or the worker sent a frame that is not allowed.
    Closed,
    /// Memory was refused.
    NoMemory,
}

/// The state of a connection.
#[derive(Clone, Copy, Debug, PartialEq, Eq)]
pub(crate) enum State {
    /// The first frame has not come.
    Handshake,
    /// The first frame named a worker, which is not registered at this connection yet: if the worker has another connection, that has to
    /// end first.
    Queued,
    /// The worker is registered, and the coordinator had nothing for it to do. The coordinator is polled for the worker again after each
    /// event.
    Idle,
    /// The worker is registered, and was told to send something: the reply is pending.
    Pending,
    /// The worker is registered, and has a task.
    Working,
}

/// A connection of a coordinator to a worker.
pub struct Connection {
    /// The allocator of the frames.
    alloc: Global,
    /// The reader of the frames; between calls it holds the bytes of a frame that is not complete.
    reader: Reader,
    /// The frames that came and are not delivered yet, in order.
    waiting: Vec<Frame>,
    /// The state.
    state: State,
    /// The worker that the first frame named; `None` before the first frame.
    worker: Option<WorkerNumber>,
    /// The incarnation that the first frame named; 0 before the first frame.
    incarnation: u64,
    /// The tick at which the timeout began: the last at which the connection began, the coordinator took a frame of the worker, the worker
    /// was told something while neither a reply nor a task was pending, or the handing out of the verdict began.
    since: u64,
    /// How many tasks in a row were answered with Idle, since the coordinator last took a frame of the worker.
    declined: u32,
    /// A hash of the cube of the worker's last task; 0 before the first task.
    leaf: u64,
    /// The timeout in ticks of the worker's last task; `None` is no timeout.
    patience: Option<u64>,
    /// How many replies of the worker are still to come.
    pending_replies: u32,
    /// How many bytes of evidence the worker announced last in a Done; 0 before that.
    announced: u32,
}

impl Drop for Connection {
    fn drop(self) {
        let Connection {
            alloc: _,
            reader: _,
            waiting: _,
            state: _,
            worker: _,
            incarnation: _,
            since: _,
            declined: _,
            leaf: _,
            patience: _,
            pending_replies: _,
            announced: _,
        } = self;
    }
}

impl Connection {
    ghost use Rattle.std.specs.Prelude.{MatchBool, ◌≢◌, ◌<◌};
    ghost use Rattle.frames.specs.Stream.{TakesPiece};
    ghost use Rattle.event_loop.specs.inner.Handshakes.{TakesFirstFrame, PopsFrame};
    ghost use Rattle.event_loop.specs.inner.Timeouts.{is_overdue, timeout_start};
    ghost use Rattle.event_loop.specs.inner.Registrations.{idle_worker, queued_worker, registered_worker};

    /// A connection that begins at this tick: no byte has come. An error is want of memory.
    pub(crate) fn new(alloc: Global, tick: u64) -> Result<Connection, AllocError>
        ensures fresh { IfOk result (λ l. l.state ≡ Handshake) }
        ensures silent { IfOk result (λ l. l.waiting.items ≡ []) }
    {
        Ok(Connection {
            alloc,
            reader: Reader::new(alloc)?,
            waiting: Vec::new(alloc),
            state: State::Handshake,
            worker: None,
            incarnation: 0,
            since: tick,
            declined: 0,
            leaf: 0,
            patience: None,
            pending_replies: 0,
            announced: 0,
        })
    }

    /// Cuts the bytes that came over the link into frames, which wait to be delivered. Answers
    /// `Closed` if there are no bytes (the link has ended), if the worker is queued, since nothing
    /// was asked of it, or if the bytes are no frames; and `NoMemory` if memory is refused.
    pub(crate) fn take(&mut self, bytes: &[u8]) -> Result<(), Broken>
        ensures same { self.new ≡ record self.old { reader = self.new.reader; waiting = self.new.waiting } }
        ensures taken { OnOk result (TakesPiece self.old.reader bytes.now self.old.waiting.items self.new.waiting.items (Ok tt) self.new.reader) }
    {
        if bytes.is_empty() || self.state == State::Queued {
            return Err(Broken::Closed);
        }
        match self.reader.feed(self.alloc, bytes, &mut self.waiting) {
            Ok(()) => Ok(()),
            Err(FrameFault::NoMemory) => Err(Broken::NoMemory),
            Err(_) => Err(Broken::Closed),
        }
    }

    /// Takes the first waiting frame out of the queue; `None` if no frame waits.
    pub(crate) fn next(&mut self) -> Option<Frame>
        ensures { PopsFrame self.old result self.new }
    {
        if self.waiting.is_empty() {
            return None;
        }
        Some(self.waiting.remove(0))
    }

    /// Tells whether a frame waits to be delivered.
    pub(crate) fn has_next(&self) -> bool
        ensures { MatchBool result (self.now.waiting.items ≢ []) (self.now.waiting.items ≡ []) }
    {
        !self.waiting.is_empty()
    }

    /// Takes the first frame of the connection, and queues the worker that it names. Answers `Closed` unless the frame is Idle of a worker
    /// whose number is at most `highest`.
    pub(crate) fn handshake(&mut self, frame: &Frame, highest: u32) -> Result<(), Broken>
        ensures { TakesFirstFrame frame.now highest self.old result self.new }
    {
        match frame {
            Frame::Idle {
                worker,
                incarnation,
            } => {
                if highest < worker.number() {
                    return Err(Broken::Closed);
                }
                self.worker = Some(*worker);
                self.incarnation = *incarnation;
                self.state = State::Queued;
                Ok(())
            }
            _ => Err(Broken::Closed),
        }
    }

    /// The worker that is queued at the connection; `None` in any other state.
    pub(crate) fn queued(&self) -> Option<WorkerNumber>
        ensures { result ≡ queued_worker self.now }
    {
        match self.state {
            State::Queued => self.worker,
            State::Handshake | State::Idle | State::Pending | State::Working => None,
        }
    }

    /// The worker that is registered at the connection; `None` before the handshake and while the worker is queued.
    pub(crate) fn registered(&self) -> Option<WorkerNumber>
        ensures { result ≡ registered_worker self.now }
    {
        match self.state {
            State::Handshake | State::Queued => None,
            State::Idle | State::Pending | State::Working => self.worker,
        }
    }

    /// The worker that is registered at the connection, if it is idle; else `None`.
    pub(crate) fn idle(&self) -> Option<WorkerNumber>
        ensures { result ≡ idle_worker self.now }
    {
        match self.state {
            State::Idle => self.worker,
            State::Handshake | State::Queued | State::Pending | State::Working => None,
        }
    }

    /// Tells whether the first frame of the connection has not come yet.
    pub(crate) fn awaits_handshake(&self) -> bool
        ensures { MatchBool result (self.now.state ≡ Handshake) (self.now.state ≢ Handshake) }
    {
        self.state == State::Handshake
    }

    /// The incarnation of the connection's worker, as its first frame said; 0 before that frame.
    pub(crate) fn incarnation(&self) -> u64
        ensures { result ≡ self.now.incarnation }
    {
        self.incarnation
    }

    /// A hash of the cube under which the connection's worker searches; `None` if the worker has no task.
    pub(crate) fn leaf(&self) -> Option<u64> {
        match self.state {
            State::Working => Some(self.leaf),
            _ => None,
        }
    }

    /// Notes that the coordinator has nothing for the connection's worker to do.
    pub(crate) fn set_idle(&mut self)
        ensures { self.new ≡ record self.old { state = Idle } }
    {
        self.state = State::Idle;
    }

    /// The tick at which the timeout begins if the worker is sent a frame at `tick`: that tick; but
    /// while a reply or a task is pending, its own timeout goes on, so that a repeated frame does
    /// not prolong it.
    fn timeout_start(&self, tick: u64) -> u64
        ensures { result ≡ timeout_start self.now tick }
    {
        match self.state {
            State::Pending | State::Working => self.since,
            State::Handshake | State::Queued | State::Idle => tick,
        }
    }

    /// Notes that the connection's worker is sent a frame at this tick, to which it has to reply in
    /// time.
    pub(crate) fn set_pending(&mut self, tick: u64)
        ensures { self.new ≡ record self.old { state = Pending; since = timeout_start self.old tick } }
    {
        self.since = self.timeout_start(tick);
        self.state = State::Pending;
    }

    /// Notes that the connection's worker is given a task at this tick: `leaf` is a hash of the task's cube, `patience` the task's timeout
    /// in ticks.
    pub(crate) fn set_working(&mut self, tick: u64, leaf: u64, patience: Option<u64>)
        ensures { self.new ≡ record self.old { state = Working; since = timeout_start self.old tick; leaf = leaf; patience = patience } }
    {
        self.since = self.timeout_start(tick);
        self.state = State::Working;
        self.leaf = leaf;
        self.patience = patience;
    }

    /// Counts a frame of the worker as one of the pending replies. If the frame is a Done that announces evidence, notes how many bytes
    /// that has.
    pub(crate) fn note_reply(&mut self, frame: &Frame)
        ensures { self.new ≡ record self.old { pending_replies = self.new.pending_replies; announced = self.new.announced } }
    {
        self.pending_replies = self.pending_replies.saturating_sub(1);
        if let Frame::Done {
            ending: Ending::Decided(finding),
            ..
        } = frame
        {
            self.announced = finding.length();
        }
    }

    /// Tells whether a reply of the connection's worker is still to come.
    pub(crate) fn has_pending(&self) -> bool
        ensures { MatchBool result (0 < self.now.pending_replies) (self.now.pending_replies ≡ 0) }
    {
        self.pending_replies > 0
    }

    /// Notes that the worker is sent frames that it answers with this many replies.
    pub(crate) fn set_pending_replies(&mut self, answers: u32)
        ensures { self.new ≡ record self.old { pending_replies = answers } }
    {
        self.pending_replies = answers;
    }

    /// How many bytes of evidence the connection's worker announced last in a Done; 0 before that.
    pub(crate) fn announced(&self) -> u32 {
        self.announced
    }

    /// Starts the timeout anew at this tick, since the worker has sent something useful, and counts
    /// the declined tasks from 0 again.
    pub(crate) fn restart_timeout(&mut self, tick: u64)
        ensures { self.new ≡ record self.old { since = tick; declined = 0 } }
    {
        self.since = tick;
        self.declined = 0;
    }

    /// Notes that the coordinator ignored this frame of the worker. An Idle from a worker that has
    /// a task counts as a declined task; at `MOST_DECLINED` in a row the answer is `Closed`.
    pub(crate) fn ignore(&mut self, frame: &Frame) -> Result<(), Broken>
        ensures { self.new ≡ record self.old { declined = self.new.declined } }
    {
        if self.state == State::Working && matches!(frame, Frame::Idle { .. }) {
            self.declined = self.declined.saturating_add(1);
            if MOST_DECLINED <= self.declined {
                return Err(Broken::Closed);
            }
        }
        Ok(())
    }

    /// Tells whether the timeout of the connection is over at this tick. The timeout of a task counts only while another worker is idle
    /// (`is_other_idle`); an idle worker has no timeout.
    pub(crate) fn is_overdue(&self, tick: u64, is_other_idle: bool) -> bool
        ensures { result ≡ is_overdue self.now tick is_other_idle }
    {
        let quiet = tick.saturating_sub(self.since);
        match self.state {
            State::Handshake | State::Queued | State::Pending => REPLY_TIMEOUT <= quiet,
            State::Idle => false,
            State::Working => match self.patience {
                Some(patience) => is_other_idle && patience <= quiet,
                None => false,
            },
        }
    }

    /// Tells whether the timeout began at least `ticks` ticks ago, in whatever state the connection
    /// is. While the verdict is handed out, such a connection is closed, even of an idle worker.
    pub(crate) fn is_quiet(&self, tick: u64, ticks: u64) -> bool {
        ticks <= tick.saturating_sub(self.since)
    }
}
