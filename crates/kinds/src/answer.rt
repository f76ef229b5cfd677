// What the bridge answers, and the numbers that stand for it.
ghost use Rattle.std.specs.Prelude.{◌≡◌};

use crate::number::{ByteAddress, PeNumber};

/// Why a request is refused or a PE is frozen, with its number in the table of answers.
#[derive(Clone, Copy, Debug, PartialEq, Eq)]
pub enum Reason {
    TableLength = 1,
    BadRequest = 2,
    UnknownRequester = 3,
    DmaStopped = 4,
    AddressClass = 5,
    BadEntry = 6,
    OutsideWindow = 7,
    TableWord = 8,
    MsiRefused = 9,
    NoWindow = 10,
    MmioStopped = 11,
    ErrorMessage = 12,
    FrozenAsPeer = 13,
    BadFirmware = 14,
    OutsideMemory = 15,
    AboveInstalled = 17,
    Fenced = 18,
}

/// `Ones` and `Drop` are a load and a store that a stop bit or the fence keeps from the device, by their reason. A refusal has the count of table words
/// read, and the address of the table word that failed, 0 where none did.
#[derive(Clone, Copy, Debug, PartialEq, Eq)]
pub enum Answer {
    Pass {
        address: ByteAddress,
        pe: PeNumber,
        words: u64,
    },
    Msi {
        number: u64,
        server: u64,
        priority: u64,
    },
    Held {
        number: u64,
    },
    Ones {
        reason: Reason,
        value: u64,
    },
    Drop {
        reason: Reason,
    },
    Refuse {
        reason: Reason,
        words: u64,
        word: ByteAddress,
    },
    Done,
}

/// An answer as numbers. `name` is 0 pass, 1 msi, 2 held, 3 ones, 4 drop, 5 refuse, 6 done.
// Kept: numbers, the words of an answer to C.
#[derive(Clone, Copy, Debug, PartialEq, Eq)]
pub struct Numbers {
    pub name: u64,
    pub reason: u64,
    pub value: u64,
    pub words: u64,
    pub pe: u64,
    pub server: u64,
    pub priority: u64,
    pub word: u64,
}

impl From<Reason> for u64 {
    ghost use Rattle.std.specs.Prelude.{◌≡◌};
    ghost use Rattle.kinds.specs.Answer.{reason_number};

    ghost from_gives = { λ reason number. number ≡ reason_number reason };

    #[inline(always)]
    fn from(reason: Reason) -> u64 {
        reason as u64
    }
}

impl From<Answer> for Numbers {
    ghost use Rattle.std.specs.Prelude.{◌≡◌};
    ghost use Rattle.kinds.specs.Answer.{numbered};

    ghost from_gives = { λ answer numbers. numbers ≡ numbered answer };

    #[inline(always)]
    fn from(answer: Answer) -> Numbers {
        match answer {
            Answer::Pass { address, pe, words } => Numbers {
                value: address.0,
                words,
                pe: u64::from(pe.0),
                ..plain(0, 0, 0, 0)
            },
            Answer::Msi {
                number,
                server,
                priority,
            } => Numbers {
                server,
                priority,
                ..plain(1, 0, number, 0)
            },
            Answer::Held { number } => plain(2, 0, number, 0),
            Answer::Ones { reason, value } => plain(3, u64::from(reason), value, 0),
            Answer::Drop { reason } => plain(4, u64::from(reason), 0, 0),
            Answer::Refuse {
                reason,
                words,
                word,
            } => Numbers {
                word: word.0,
                ..plain(5, u64::from(reason), 0, words)
            },
            Answer::Done => plain(6, 0, 0, 0),
        }
    }
}

// An answer that names no PE, server, priority or table word.
#[inline(always)]
fn plain(name: u64, reason: u64, value: u64, words: u64) -> Numbers
    ensures { result ≡ record { name = name; reason = reason; value = value; words = words; pe = 0; server = 0; priority = 0; word = 0 } }
{
    Numbers {
        name,
        reason,
        value,
        words,
        pe: 0,
        server: 0,
        priority: 0,
        word: 0,
    }
}
