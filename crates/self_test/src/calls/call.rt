//! A call that may find no memory, and the same call again.

use packed_text::PackedText;
use std::alloc::Global;

/// The answer of a call.
#[derive(Drop)]
pub(crate) enum Answer {
    /// Memory was wanting.
    NoMemory,
    /// Memory was wanting, and something is not as it was before the call.
    Changed,
    /// Words for the answer.
    Said(&'static str),
    /// The bytes that it made.
    Made(Vec<u8>),
}

/// The answer of a call; of the second one if it was made twice.
#[derive(Drop)]
pub(crate) struct Tried {
    /// Whether memory was wanting the first time.
    pub(crate) was_refused: bool,
    pub(crate) answer: Answer,
}

/// A call that can be made again.
pub(crate) trait Call {
    /// Makes the call once; it may be made again.
    fn make(&mut self) -> Answer;
}

/// The answer of a call that made a packed text, which is unpacked to be printed.
pub(crate) fn made(alloc: Global, text: &PackedText) -> Answer {
    match text.to_text(alloc) {
        Ok(text) => Answer::Made(text),
        Err(_) => Answer::NoMemory,
    }
}

/// Makes a call, and makes it again if memory was wanting.
pub(crate) fn try_twice<C: Call>(call: &mut C) -> Tried {
    match call.make() {
        Answer::NoMemory => Tried {
            was_refused: true,
            answer: call.make(),
        },
        answer => Tried {
            was_refused: false,
            answer,
        },
    }
}
