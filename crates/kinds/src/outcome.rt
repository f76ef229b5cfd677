// The outcome of a request: its answer, and what is done to the tables. An effect names no PE: it is done at the PE that owns the request.
use crate::answer::{Answer, Reason};
use crate::number::{ByteAddress, PeNumber};
use crate::record::TranslationEntry;
use crate::request::{DmaRequest, Part};

/// What a freeze writes into an empty error record; `word` is the address of the table word that failed, 0 where none did.
#[derive(Clone, Copy, Debug, PartialEq, Eq)]
pub struct ErrorRecord {
    pub reason: Reason,
    pub value: u64,
    pub word: ByteAddress,
}

#[derive(Clone, Copy, Debug, PartialEq, Eq)]
pub enum Effect {
    Keep,
    // With the PE's peers, or alone.
    Freeze {
        error: ErrorRecord,
        peers: bool,
    },
    Release {
        part: Part,
    },
    // The interrupt's priority and state words become these.
    Interrupt {
        number: u64,
        priority: u64,
        bits: u64,
    },
    // The fence bit becomes this. It is no PE's, so it is the same wherever the effect is done.
    Fence {
        bit: bool,
    },
}

#[derive(Clone, Copy, Debug, PartialEq, Eq)]
pub struct Outcome {
    pub answer: Answer,
    pub effect: Effect,
}

/// What is known of a request before memory is read.
#[derive(Clone, Copy, Debug, PartialEq, Eq)]
pub enum Check {
    // It is answered, and nothing is done.
    Kept(Answer),
    // Its outcome, whose effect is done at this PE.
    Ready(PeNumber, Outcome),
    // The page table of this entry of the PE is walked for the DMA.
    // Kept: three values, as the definitions `by_entry` and `finish` take and give them; functions that take its parts take them one by one.
    Walk(PeNumber, TranslationEntry, DmaRequest),
    // It is done, and the fence bit becomes this.
    Fences(bool),
}
