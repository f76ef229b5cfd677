// What is found in the tables before a request is answered. The PE that a request belongs to is a `Result<PeNumber, Reason>`: nobody's has the refusal that
// it then gets. The window of an address is an `Option<Hit>`, what a walk ends in a `Result<Frame, WalkError>`, a translation a `Result<ByteAddress, Fault>`.
use crate::answer::Reason;
use crate::number::ByteAddress;

/// The first open window that covers an address: the number that it gives as its PE, below N or not, and the PCI address.
#[derive(Clone, Copy, Debug, PartialEq, Eq)]
pub struct Hit {
    pub pe: u64,
    pub pci: ByteAddress,
}

/// The last table word of a walk: its address and its content.
#[derive(Clone, Copy, Debug, PartialEq, Eq)]
pub struct Frame {
    pub word: ByteAddress,
    pub content: u64,
}

/// Why a walk has no last table word: the word at this address forbids, or is outside memory.
#[derive(Clone, Copy, Debug, PartialEq, Eq)]
pub enum WalkError {
    Forbidden { word: ByteAddress },
    Outside { word: ByteAddress },
}

/// Why there is no system address: the reason, and the address of the table word that failed, 0 where no word was asked for.
#[derive(Clone, Copy, Debug, PartialEq, Eq)]
pub struct Fault {
    pub reason: Reason,
    pub word: ByteAddress,
}
