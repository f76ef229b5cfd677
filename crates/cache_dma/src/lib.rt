// A DMA whose page table is asked for, with a translation cache: a hit is answered from its slot, without memory; else the page is walked, and its slot is filled
// where the DMA passes. Defined in crates/cache/specs/Cache.antt.
#![tactic(auto)]

ghost use Rattle.std.specs.Prelude.{◌≡◌};
ghost use Rattle.kinds.specs.Number.{page_number};
ghost use Rattle.kinds.specs.declared.outcome.Check.TheVariants.{Walk};
ghost use Rattle.profile.specs.Entry.{half, offset, page_size};
ghost use Rattle.profile.specs.Step.{reached, finish};
ghost use Rattle.profile.specs.Walk.{landed};
ghost use Rattle.cache.specs.Cache.{is_pass, content, filled};
ghost use Rattle.cache.specs.Slots.{slot_of};
ghost use Rattle.cache_dma.specs.Quick.{quick_for};
ghost use Rattle.cache_dma.specs.Went.{Went};

use cache_slots::{self, Key};
use dma;
use dma_entry::addresses;
use dma_pages::{page_tables, pages};
use dma_walk::{translate, walk};
use kinds::answer::Answer;
use kinds::lookup::{Frame, WalkError};
use kinds::number::{ByteAddress, NO_WORD, PageSize, PeNumber};
use kinds::outcome::Outcome;
use kinds::record::TranslationEntry;
use kinds::request::DmaRequest;

// Where the page of a DMA lies: the page size, the offset of its address, and the slot that the rule chooses for its page.
#[derive(Clone, Copy, Debug, PartialEq, Eq)]
struct Place {
    size: PageSize,
    offset: ByteAddress,
    key: Key,
    slot: u8,
}

// No memory is lent.
#[inline(always)]
fn place_of(pe: PeNumber, entry: TranslationEntry, address: ByteAddress) -> Place
    ensures size { result.size ≡ page_size entry }
    ensures offset { result.offset ≡ offset address }
    ensures pe { result.key.pe ≡ pe }
    ensures half { result.key.half ≡ half address }
    ensures page { result.key.page ≡ page_number (page_size entry) (offset address) }
    ensures slot { result.slot ≡ slot_of pe (half address) (page_number (page_size entry) (offset address)) }
{
    let size = page_tables::size_of(entry);
    let offset = addresses::offset_of(address);
    let half = addresses::half_of(address);
    let page = pages::page_number(size, offset);
    let key = Key { pe, half, page };
    let slot = cache_slots::slot_of(key);
    Place {
        size,
        offset,
        key,
        slot,
    }
}

// What a DMA comes to by what was found for its page, and the count. No memory is lent. The installed size comes first.
#[inline(always)]
fn found_by(
    installed: u64,
    at: Place,
    dma: DmaRequest,
    found: Result<Frame, WalkError>,
    words: u64,
) -> Outcome
    ensures { result ≡ reached installed at.key.pe dma (landed at.size dma.direction at.offset found) words }
{
    let translated = translate::land(at.size, dma.direction, at.offset, found);
    dma::reached(installed, at.key.pe, dma, translated, words)
}

/// The outcome of a hit whose word permits the DMA; without one the page is walked. No memory is lent. The installed size comes first.
// Kept: PE, entry and DMA as three, as the definition's check of a walk has them (crates/kinds/src/outcome.rt, `Check::Walk`).
#[inline(always)]
#[tactic(auto, unfolding(crate::specs::Quick::quick_for, cache::specs::Cache::is_hit, cache::specs::Cache::found_by))]
pub fn look(
    installed: u64,
    cache: &[u64],
    pe: PeNumber,
    entry: TranslationEntry,
    dma: DmaRequest,
) -> Option<Outcome>
    ensures { result ≡ quick_for installed cache.now pe entry dma }
{
    let at = place_of(pe, entry, dma.address);
    if !cache_slots::is_held(cache, at.slot, at.key) {
        return None;
    }
    let content = cache_slots::word_of(cache, at.slot);
    if !translate::allows(dma.direction, content) {
        return None;
    }
    let found = Ok(Frame {
        word: NO_WORD,
        content,
    });
    let outcome = found_by(installed, at, dma, found, entry.levels);
    Some(outcome)
}

#[inline(always)]
fn is_pass(answer: Answer) -> bool
    ensures { result ≡ is_pass answer }
{
    matches!(answer, Answer::Pass { .. })
}

// The word that a walk found; 0 where it found none.
#[inline(always)]
fn content_of(found: Result<Frame, WalkError>) -> u64
    ensures { result ≡ content found }
{
    found.map_or(0, |frame| frame.content)
}

/// The walk, the only reader of memory; the slot of its page is filled where the DMA passes.
#[inline(always)]
#[tactic(auto, using(crate::proofs::CacheDmaLaws::finish_is), unfolding(cache::specs::Cache::filled))]
pub fn walk_and_fill(
    installed: u64,
    memory: &[u64],
    cache: &mut [u64],
    pe: PeNumber,
    entry: TranslationEntry,
    dma: DmaRequest,
) -> Outcome
    ensures { Went result cache.new (finish installed memory.now (Walk pe entry dma)) (filled installed memory.now cache.old (Walk pe entry dma)) }
{
    let at = place_of(pe, entry, dma.address);
    let walked = walk::walk_page(memory, entry, at.key.page);
    let found = walked.found;
    let outcome = found_by(installed, at, dma, found, walked.words);
    if is_pass(outcome.answer) {
        cache_slots::fill(cache, at.slot, at.key, content_of(found));
    }
    outcome
}
