// A sweep of the translation cache: each full slot that is named is emptied, wherever the rule would have put it. Defined in crates/cache/specs/Slots.antt, what
// names a slot in crates/cache/specs/Cache.antt.
#![tactic(auto)]

ghost use Rattle.std.specs.Prelude.{◌≡◌, ◌*◌, ◌<◌, ℕ, Bool, true, length};
ghost use Rattle.cache.specs.Cache.{through};
ghost use Rattle.cache.specs.Slots.{slot_words, Test, dropped, sweep};
ghost use Rattle.cache_sweeps.specs.Drops.{of_entries, of_pe, of_page, any_slot, its_slots, page_slot};
ghost use Rattle.cache_sweeps.specs.Turn.{cleared};

use cache_slots::SLOT_WORDS;
use dma_entry::addresses::{entry_of, half_of, offset_of};
use dma_pages::page_tables::{is_paged, size_of};
use dma_pages::pages::page_number;
use dma_walk::touch::touches;
use kinds::number::{ByteAddress, PageNumber, PeNumber};
use tables::words::{put, word};

// Each sweep is a function of its own, for speed: in line in the loop of the bridge it took longer.

/// Each full slot is emptied.
#[inline(never)]
pub fn drop_all(cache: &mut [u64])
    ensures { cache.new ≡ sweep any_slot cache.old }
{
    sweep(cache, |_tag, _half, _page| true);
}

/// Each slot of a PE is emptied.
#[inline(never)]
pub fn drop_pe(cache: &mut [u64], pe: u64)
    ensures { cache.new ≡ sweep (its_slots pe) cache.old }
{
    sweep(cache, |tag, _half, _page| of_pe(pe, tag));
}

/// The page around an address is dropped, by the record that bit 59 picks, where that has pages. Its window is not asked for.
#[tactic(auto, using(crate::proofs::SweepLaws::page_named, crate::proofs::SweepLaws::none_named))]
pub fn drop_page(entries: &[u64], cache: &mut [u64], pe: PeNumber, address: ByteAddress)
    ensures { cache.new ≡ sweep (page_slot entries.now pe address) cache.old }
{
    let entry = entry_of(entries, pe, address);
    if is_paged(entry) {
        let half = half_of(address);
        let page = page_number(size_of(entry), offset_of(address));
        drop_key(cache, u64::from(pe.0), half, page.0);
    }
}

/// Each slot of a page is emptied, by its key: the number of its PE, its half (0 or 1) and its page number. Any three numbers are taken; those of no page name none of
/// the slots that the rule fills.
#[inline(never)]
pub fn drop_key(cache: &mut [u64], pe: u64, half: u64, page: u64)
    ensures { cache.new ≡ sweep (of_page pe half page) cache.old }
{
    sweep(cache, |tag, second, third| {
        of_page(pe, half, page, tag, second, third)
    });
}

/// Each slot is emptied whose page is walked through a memory word; `pes` is N.
// Kept: N, the lists and the word one by one, as the definitions `of_entries` and `through` take them; `through` below is handed them on.
#[inline(never)]
pub fn drop_through(pes: u16, entries: &[u64], memory: &[u64], cache: &mut [u64], word: u64)
    ensures { cache.new ≡ sweep (through (of_entries pes entries.now) memory.now word) cache.old }
{
    sweep(cache, |tag, half, page| {
        through(pes, entries, memory, word, tag, half, page)
    });
}

// The tag is that of a PE: PE + 1, which is not worked out, for it can be 2^64.
fn of_pe(pe: u64, tag: u64) -> bool
    ensures { result ≡ of_pe pe tag }
{
    tag != 0 && tag - 1 == pe
}

// The first three words of a slot are those of a page.
// Kept: the numbers one by one, as the definition `of_page` takes them.
#[tactic(auto, unfolding(crate::specs::Drops::of_page))]
fn of_page(pe: u64, half: u64, page: u64, tag: u64, second: u64, third: u64) -> bool
    ensures { result ≡ of_page pe half page tag second third }
{
    of_pe(pe, tag) && second == half && third == page
}

// The walk of the page that a full slot holds reads a memory word; `pes` is N.
#[tactic(auto, using(crate::proofs::SweepLaws::no_record, crate::proofs::SweepLaws::no_half, crate::proofs::SweepLaws::by_record))]
fn through(
    pes: u16,
    entries: &[u64],
    memory: &[u64],
    word: u64,
    tag: u64,
    half: u64,
    page: u64,
) -> bool
    ensures { result ≡ through (of_entries pes entries.now) memory.now word tag half page }
{
    let number = tag.saturating_sub(1);
    if number < u64::from(pes) && half < 2 {
        let entry = entry_of(entries, PeNumber(number as u16), ByteAddress(half << 59));
        is_paged(entry) && touches(memory, entry, PageNumber(page), word)
    } else {
        false
    }
}

// All slots are looked at: a full one that `named` names, by its first three words, is emptied.
fn sweep<F: Fn(u64, u64, u64) -> bool>(cache: &mut [u64], named: F)
    requires { F.IsAlwaysCallable named }
    ensures { (d : Test) → ((t h q : ℕ) (r : Bool) → F.post named t h q r → r ≡ d t h q) → cache.new ≡ sweep d cache.old }
{
    for slot in 0..cache.len().div_ceil(SLOT_WORDS) {
        if is_dropped(cache, slot, &named) {
            empty(cache, slot);
        }
    }
}

// A slot is full and named.
#[tactic(auto, unfolding(cache::specs::Slots::dropped))]
fn is_dropped<F: Fn(u64, u64, u64) -> bool>(cache: &[u64], slot: usize, named: &F) -> bool
    requires in_table { slot * slot_words < length cache.now }
    requires callable { F.IsAlwaysCallable named.now }
    ensures { (d : Test) → ((t h q : ℕ) (r : Bool) → F.post named.now t h q r → r ≡ d t h q) → result ≡ dropped d cache.now slot }
{
    let first = slot * SLOT_WORDS;
    let tag = word(cache, first);
    tag != 0 && named(tag, word(cache, first + 1), word(cache, first + 2))
}

// A slot is emptied.
#[tactic(auto, unfolding(crate::specs::Turn::cleared))]
fn empty(cache: &mut [u64], slot: usize)
    requires { slot * slot_words < length cache.old }
    ensures { cache.new ≡ cleared true cache.old slot }
{
    let first = slot * SLOT_WORDS;
    put(cache, first, 0);
    put(cache, first + 1, 0);
    put(cache, first + 2, 0);
    put(cache, first + 3, 0);
}
