// What is asked of the bridge. Numbers of requesters, PEs and interrupts are as wide as a caller can bring them; that of a PE becomes a
// `PeNumber` when it has been found good.
use crate::number::{ByteAddress, Unnamed};

#[derive(Clone, Copy, Debug, PartialEq, Eq)]
pub enum Direction {
    Read,
    Write,
}

// 0 is a read, 1 a write.
impl TryFrom<u64> for Direction {
    type Error = Unnamed;

    ghost use Rattle.std.specs.Prelude.{◌≡◌};
    ghost use Rattle.kinds.specs.Codes.{direction_of};

    ghost try_from_gives = { λ word result. result ≡ direction_of word };

    #[inline(always)]
    fn try_from(word: u64) -> Result<Direction, Unnamed> {
        match word {
            0 => Ok(Direction::Read),
            1 => Ok(Direction::Write),
            _ => Err(Unnamed),
        }
    }
}

/// What an address of a DMA asks for, by its top four bits.
#[derive(Clone, Copy, Debug, PartialEq, Eq)]
pub enum AddressClass {
    Dma,
    Msi32,
    Msi64,
    Unserved,
}

/// The part of a PE's state that firmware clears.
#[derive(Clone, Copy, Debug, PartialEq, Eq)]
pub enum Part {
    Mmio,
    Dma,
    Record,
}

// 0 is the MMIO stop bit, 1 the DMA stop bit, 2 the error record.
impl TryFrom<u64> for Part {
    type Error = Unnamed;

    ghost use Rattle.std.specs.Prelude.{◌≡◌};
    ghost use Rattle.kinds.specs.Codes.{part_of};

    ghost try_from_gives = { λ word result. result ≡ part_of word };

    #[inline(always)]
    fn try_from(word: u64) -> Result<Part, Unnamed> {
        match word {
            0 => Ok(Part::Mmio),
            1 => Ok(Part::Dma),
            2 => Ok(Part::Record),
            _ => Err(Unnamed),
        }
    }
}

/// A DMA, or an MSI by its address.
#[derive(Clone, Copy, Debug, PartialEq, Eq)]
pub struct DmaRequest {
    pub requester: u64,
    pub direction: Direction,
    pub address: ByteAddress,
    pub length: u64,
    pub data: u32,
}

#[derive(Clone, Copy, Debug, PartialEq, Eq)]
pub enum Request {
    Dma(DmaRequest),
    Load { address: ByteAddress, width: u64 },
    Store { address: ByteAddress, width: u64 },
    Error { requester: u64 },
    Clear { pe: u64, part: Part },
    End { interrupt: u64 },
    Priority { interrupt: u64, priority: u64 },
    // An error that is fatal to the bridge: it sets the fence.
    Fatal { requester: u64 },
    // Firmware clears the fence.
    FenceClear,
    // Words that name no request.
    Unnamed,
}

/// What an invalidate of the translation cache names: all that it holds, what it holds of a PE, or of the page around an address of a PE.
#[derive(Clone, Copy, Debug, PartialEq, Eq)]
pub enum Scope {
    All,
    Pe { pe: u64 },
    Address { pe: u64, address: ByteAddress },
}

/// What is asked of the bridge with a translation cache: a request, an edit of a word of memory, or an invalidate.
#[derive(Clone, Copy, Debug, PartialEq, Eq)]
pub enum Operation {
    Plain(Request),
    // The word with this number, which stands at 8 times as many bytes, becomes this value.
    Edit { word: u64, value: u64 },
    Invalidate(Scope),
}
