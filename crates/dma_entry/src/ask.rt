// What an entry says of an offset before memory is read.
ghost use Rattle.std.specs.Prelude.{◌≡◌, ◌≤◌};
ghost use Rattle.dma_entry.specs.Ask.{asked, asked_bypass, asked_pages};

use dma_pages::page_tables::shape_of;
use kinds::answer::Reason;
use kinds::number::{ByteAddress, PageSize};
use kinds::record::TranslationEntry;
use profile::limits::MOST_TABLE_CODE;

// The largest end of a bypass, in units of 16 MiB: 2^35 of them are 2^59 bytes.
const MOST_UNITS: u64 = 0x8_0000_0000;

/// The way of an offset by an entry: the page table is walked, or the offset is the system address.
#[derive(Clone, Copy, Debug, PartialEq, Eq)]
pub enum Way {
    // Kept: the page size, which the definition `asked_pages` gives, though no caller reads it.
    Walk(PageSize),
    Bypass,
}

/// A bad entry, and an offset outside the window of a good one, are refused for that reason.
#[inline(always)]
#[tactic(auto, unfolding(profile::specs::Entry::table_good))]
pub fn ask(entry: TranslationEntry, offset: ByteAddress) -> Result<Way, Reason>
    ensures { result ≡ asked entry offset }
{
    if !(1..=MOST_TABLE_CODE).contains(&entry.table) {
        return Err(Reason::BadEntry);
    }
    if entry.page == 0 {
        ask_bypass(entry, offset)
    } else {
        ask_pages(entry, offset)
    }
}

// An entry whose page code is 0: its first two words are start and end in units of 16 MiB, the end not included.
#[inline(always)]
#[tactic(auto, using(crate::proofs::EntryLaws::in_units), unfolding(profile::specs::Entry::bypass_good))]
fn ask_bypass(entry: TranslationEntry, offset: ByteAddress) -> Result<Way, Reason>
    ensures { result ≡ asked_bypass entry offset }
{
    let start = entry.base;
    let end = entry.levels;
    if end <= start || MOST_UNITS < end {
        return Err(Reason::BadEntry);
    }
    let unit = offset.0 >> 24;
    // Kept: two comparisons, since the proof did not close with `contains` of a range.
    if start <= unit && unit < end {
        Ok(Way::Bypass)
    } else {
        Err(Reason::OutsideWindow)
    }
}

// An entry with another page code.
#[inline(always)]
#[tactic(auto, using(crate::proofs::EntryLaws::span_below, crate::proofs::EntryLaws::span_end))]
fn ask_pages(entry: TranslationEntry, offset: ByteAddress) -> Result<Way, Reason>
    requires { entry.table ≤ 31 }
    ensures { result ≡ asked_pages entry offset }
{
    let shape = shape_of(entry).ok_or(Reason::BadEntry)?;
    if 1u64 << shape.span <= offset.0 {
        return Err(Reason::OutsideWindow);
    }
    Ok(Way::Walk(shape.size))
}
