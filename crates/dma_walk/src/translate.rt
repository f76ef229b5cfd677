// The translation of an offset by the page table of an entry. It knows no PE.
ghost use Rattle.std.specs.Prelude.{◌≡◌};
ghost use Rattle.profile.specs.Walk.{allows, landed, by_pages};
ghost use Rattle.dma_walk.specs.Turn.{summed, fault_of};

use crate::walk::walk_page;
use dma_pages::page_tables::size_of;
use dma_pages::pages::{byte_address, page_number};
use kinds::answer::Reason;
use kinds::lookup::{Fault, Frame, WalkError};
use kinds::number::{ByteAddress, PageSize};
use kinds::record::TranslationEntry;
use kinds::request::Direction;

/// The system address or the fault, and the count of table words read.
#[derive(Clone, Copy, Debug, PartialEq, Eq)]
pub struct Translation {
    pub result: Result<ByteAddress, Fault>,
    pub words: u64,
}

/// The translation of an offset by the walk of its page, the only reader of memory.
#[inline(always)]
#[tactic(auto, unfolding(profile::specs::Walk::by_pages))]
pub fn translate(
    memory: &[u64],
    entry: TranslationEntry,
    direction: Direction,
    offset: ByteAddress,
) -> Translation
    ensures { result ≡ summed (by_pages memory.now entry direction offset) }
{
    let size = size_of(entry);
    let walked = walk_page(memory, entry, page_number(size, offset));
    Translation {
        result: land(size, direction, offset, walked.found),
        words: walked.words,
    }
}

/// What a walk found, for an offset. No memory is lent.
#[inline(always)]
#[tactic(auto, using(crate::proofs::TranslateLaws::lands), unfolding(profile::specs::Walk::landed))]
pub fn land(
    size: PageSize,
    direction: Direction,
    offset: ByteAddress,
    found: Result<Frame, WalkError>,
) -> Result<ByteAddress, Fault>
    ensures { result ≡ landed size direction offset found }
{
    let frame = found.map_err(fault_of)?;
    if allows(direction, frame.content) {
        let page = page_number(size, ByteAddress(frame.content));
        Ok(byte_address(size, page, offset))
    } else {
        Err(Fault {
            reason: Reason::TableWord,
            word: frame.word,
        })
    }
}

// The fault of a walk that has no last table word.
#[inline(always)]
fn fault_of(error: WalkError) -> Fault
    ensures { result ≡ fault_of error }
{
    match error {
        WalkError::Forbidden { word } => Fault {
            reason: Reason::TableWord,
            word,
        },
        WalkError::Outside { word } => Fault {
            reason: Reason::OutsideMemory,
            word,
        },
    }
}

/// Bit 0 is read-valid, bit 1 write-valid.
#[inline(always)]
#[tactic(auto, unfolding(profile::specs::Walk::allows))]
pub fn allows(direction: Direction, word: u64) -> bool
    ensures { result ≡ allows direction word }
{
    match direction {
        Direction::Read => word % 2 == 1,
        Direction::Write => (word >> 1) % 2 == 1,
    }
}
