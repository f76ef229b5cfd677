// The shape of a page table: its page size, and the sum of the bits of its pages and indexes.
ghost use Rattle.std.specs.Prelude.{◌≡◌, ◌≤◌};
ghost use Rattle.std.specs.Result.{result_ok};
ghost use Rattle.kinds.specs.Codes.{size_of};
ghost use Rattle.profile.specs.Entry.{aligned, page_size, index_bits, walkable, paged};
ghost use Rattle.dma_pages.specs.Shape.{shape_of};

use crate::pages::page_bits;
use kinds::number::{ByteAddress, PageSize};
use kinds::record::TranslationEntry;
use profile::limits::{CODE_BITS, MOST_LEVELS, MOST_TABLE_CODE, OFFSET_BITS};

// The most bits of an index for which the bytes of a table are a number of 64 bits.
const MOST_BITS: u64 = 60;

/// The page size of a table, and the sum of the bits of its pages and indexes.
#[derive(Clone, Copy, Debug, PartialEq, Eq)]
pub struct Shape {
    pub size: PageSize,
    pub span: u64,
}

/// Whether a base is a multiple of the bytes of a table of 2^bits words.
#[inline(always)]
pub fn aligned(bits: u64, base: ByteAddress) -> bool
    ensures { result ≡ aligned bits base }
{
    if bits <= MOST_BITS {
        base.0 & ((8u64 << bits) - 1) == 0
    } else {
        base.0 == 0
    }
}

// The page size of an entry whose page code is known.
#[inline(always)]
fn known_size(entry: TranslationEntry) -> Option<PageSize>
    ensures { result ≡ result_ok (size_of entry.page) }
{
    PageSize::try_from(entry.page).ok()
}

/// The page size of an entry; of a page code that is not known it is 256 MiB.
#[inline(always)]
#[tactic(auto, unfolding(profile::specs::Entry::page_size))]
pub fn size_of(entry: TranslationEntry) -> PageSize
    ensures { result ≡ page_size entry }
{
    known_size(entry).unwrap_or(PageSize::M256)
}

/// Whether the table of an entry can be walked at all.
#[inline(always)]
#[tactic(auto, unfolding(profile::specs::Entry::walkable))]
pub fn is_walkable(entry: TranslationEntry) -> bool
    ensures { result ≡ walkable entry }
{
    entry.table <= MOST_TABLE_CODE
        && entry.levels <= MOST_LEVELS
        && (entry.table + CODE_BITS) * entry.levels <= OFFSET_BITS
        && aligned(entry.table + CODE_BITS, ByteAddress(entry.base))
}

/// The shape that an entry gives its table; one that is bad, or whose table code is above the largest, gives none.
#[inline(always)]
#[tactic(auto, using(crate::proofs::ShapeLaws::known_size, crate::proofs::ShapeLaws::unknown_size), unfolding(profile::specs::Entry::pages_good))]
pub fn shape_of(entry: TranslationEntry) -> Option<Shape>
    ensures { result ≡ shape_of entry }
{
    let size = known_size(entry)?;
    // Kept: two comparisons, since the proof did not close with `contains` of a range.
    if entry.table > MOST_TABLE_CODE || entry.levels < 1 || entry.levels > MOST_LEVELS {
        return None;
    }
    let bits = entry.table + CODE_BITS;
    let span = page_bits(size) + entry.levels * bits;
    if span > OFFSET_BITS || !aligned(bits, ByteAddress(entry.base)) {
        return None;
    }
    Some(Shape { size, span })
}

/// Whether an entry is good and has pages.
#[inline(always)]
#[tactic(auto, using(crate::proofs::ShapeLaws::no_bypass), unfolding(profile::specs::Entry::paged, profile::specs::Entry::table_good))]
pub fn is_paged(entry: TranslationEntry) -> bool
    ensures { result ≡ paged entry }
{
    1 <= entry.table && shape_of(entry).is_some()
}
