// Marks on the memory words that walks by an entry read for an address of the DMA class, found level by level.
ghost use Rattle.std.specs.Prelude.{◌≡◌, ◌*◌, ◌<◌, ◌≤◌, length};
ghost use Rattle.profile.specs.Entry.{index_bits, most_table_code, offset_bits};
ghost use Rattle.isolation_reach.specs.Marks.{gap_at, gap_of, marks_by};
ghost use Rattle.isolation_reach.specs.Room.{Marked};

use crate::levels;
use crate::room::Room;
use dma_pages::page_tables::is_paged;
use kinds::number::PageSize;
use kinds::record::TranslationEntry;
use profile::limits::CODE_BITS;

// The first page of the 32-bit MSI window where pages have 4 KiB, and the pages that it has.
const MSI_PAGE_4K: u64 = 0xFFFF0;

const MSI_PAGES_4K: u64 = 16;

// The same of 64 KiB.
const MSI_PAGE_64K: u64 = 0xFFFF;

const MSI_PAGES_64K: u64 = 1;

/// Pages that are not walked: the first, and how many.
#[derive(Clone, Copy, Debug, PartialEq, Eq)]
pub struct Gap {
    pub page: u64,
    pub count: u64,
}

// Kept: an empty gap in place of an `Option`, since `mark_levels` then has no case for it, as a loop has none for an empty range.
const NO_GAP: Gap = Gap { page: 0, count: 0 };

// `count` pages from `page`, where the table has that page.
#[tactic(auto, unfolding(crate::specs::Marks::gap_at))]
fn gap_at(entry: TranslationEntry, page: u64, count: u64) -> Gap
    requires { (entry.table ≤ most_table_code) × (index_bits entry * entry.levels ≤ offset_bits) }
    ensures { result ≡ gap_at entry page count }
{
    if page >> ((entry.table + CODE_BITS) * entry.levels) == 0 {
        Gap { page, count }
    } else {
        NO_GAP
    }
}

// The pages of a record that are not walked, since their addresses are of the 32-bit MSI window. A page of 16 MiB or more has other addresses too.
#[tactic(auto, unfolding(crate::specs::Marks::gap_of))]
fn gap_of(entry: TranslationEntry, half: u64) -> Gap
    requires { (entry.table ≤ most_table_code) × (index_bits entry * entry.levels ≤ offset_bits) }
    ensures { result ≡ gap_of entry half }
{
    match (half, PageSize::try_from(entry.page)) {
        (0, Ok(PageSize::K4)) => gap_at(entry, MSI_PAGE_4K, MSI_PAGES_4K),
        (0, Ok(PageSize::K64)) => gap_at(entry, MSI_PAGE_64K, MSI_PAGES_64K),
        _ => NO_GAP,
    }
}

// Marks the words that walks by the entry, which is the record `half` of its PE, read.
#[tactic(auto, using(crate::proofs::MarkingLaws::code_most, crate::proofs::MarkingLaws::all_bits, crate::proofs::MarkingLaws::some_level, crate::proofs::MarkingLaws::upper_bits), unfolding(crate::specs::Marks::marks_by))]
pub(crate) fn mark_entry(room: &mut Room<'_>, entry: TranslationEntry, half: u64)
    ensures { Marked room.old room.new (marks_by room.old.memory.now entry half room.old.marks.now) }
{
    if is_paged(entry) {
        let gap = gap_of(entry, half);
        let bits = entry.table + CODE_BITS;
        let first = (entry.base / 8) as usize;
        levels::mark_levels(room, bits, gap, entry.levels - 1, first);
    }
}
