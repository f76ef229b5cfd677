// The slots of the translation cache, each by its number. A slot number is a byte: there are 256. Defined in crates/cache/specs/Slots.antt.
#![tactic(auto)]

ghost use Rattle.std.specs.Prelude.{◌≡◌};
ghost use Rattle.cache.specs.Slots.{slot_of, word_of, holds, put};

use cache::limits;
use kinds::number::{PageNumber, PeNumber};
use tables::words::{put, word};

/// The words of a slot: PE + 1 (0: the slot is empty), half, page number, last-level word.
pub const SLOT_WORDS: usize = limits::SLOT_WORDS as usize;

/// What a slot holds: a page of a PE, in the half of its two records that bit 59 of an address picks.
#[derive(Clone, Copy, Debug, PartialEq, Eq)]
pub struct Key {
    pub pe: PeNumber,
    pub half: u64,
    pub page: PageNumber,
}

/// The slot that the rule chooses for a page.
#[inline(always)]
#[tactic(auto, using(crate::proofs::SlotLaws::slot_is))]
pub fn slot_of(key: Key) -> u8
    ensures { result ≡ slot_of key.pe key.half key.page }
{
    let record = 2 * u64::from(key.pe.0) + key.half % limits::SLOT_COUNT;
    ((key.page.0 % limits::SLOT_COUNT + limits::SLOT_FACTOR * record) % limits::SLOT_COUNT) as u8
}

/// Whether a slot holds this page.
#[inline(always)]
#[tactic(auto, unfolding(cache::specs::Slots::holds))]
pub fn is_held(cache: &[u64], slot: u8, key: Key) -> bool
    ensures { result ≡ holds cache.now slot key.pe key.half key.page }
{
    let first = usize::from(slot) * SLOT_WORDS;
    word(cache, first) == u64::from(key.pe.0) + 1
        && word(cache, first + 1) == key.half
        && word(cache, first + 2) == key.page.0
}

/// The last-level word of a slot.
#[inline(always)]
pub fn word_of(cache: &[u64], slot: u8) -> u64
    ensures { result ≡ word_of cache.now slot }
{
    word(cache, usize::from(slot) * SLOT_WORDS + 3)
}

/// A slot then holds this page, with its word.
#[inline(always)]
#[tactic(auto, unfolding(cache::specs::Slots::put))]
pub fn fill(cache: &mut [u64], slot: u8, key: Key, value: u64)
    ensures { cache.new ≡ put cache.old slot key.pe key.half key.page value }
{
    let first = usize::from(slot) * SLOT_WORDS;
    put(cache, first, u64::from(key.pe.0) + 1);
    put(cache, first + 1, key.half);
    put(cache, first + 2, key.page.0);
    put(cache, first + 3, value);
}
