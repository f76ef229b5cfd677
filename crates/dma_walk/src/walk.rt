// The walk of a page table.
ghost use Rattle.std.specs.Prelude.{◌≡◌, true, ◌+◌, ◌*◌, ◌^◌, ◌<◌, ◌≤◌};
ghost use Rattle.kinds.specs.Number.{word_bytes, word_address};
ghost use Rattle.profile.specs.Entry.{aligned, most_table_code, code_bits};
ghost use Rattle.profile.specs.Walk.{place, next_base, walk, walked_page};
ghost use Rattle.dma_walk.specs.Turn.{Shaped, next, stepped, counted};

use dma_pages::page_tables::{aligned, is_walkable};
use kinds::lookup::{Frame, WalkError};
use kinds::number::{ByteAddress, NO_WORD, PageNumber};
use kinds::record::TranslationEntry;
use profile::limits::{CODE_BITS, WORD_BYTES};

/// What a walk found, and the count of words that it read.
#[derive(Clone, Copy, Debug, PartialEq, Eq)]
pub struct Walked {
    pub found: Result<Frame, WalkError>,
    pub words: u64,
}

// The number of the memory word that a page has in the table at `base`, with `below` levels below it.
// Kept: `bits` and `base` are two numbers. A struct for `bits` would take one of two or three facts out of each contract, since `bits * below < 64` changes with each level; one for both would be
// built anew at each level.
#[inline(always)]
#[tactic(auto, using(crate::proofs::StepLaws::placed))]
pub(crate) fn place(below: u64, bits: u64, base: ByteAddress, page: PageNumber) -> usize
    requires { (bits ≤ most_table_code + code_bits) × (bits * below < 64) }
    ensures { result ≡ place below bits base page }
{
    let shift = bits * below;
    ((base.0 >> 3) + ((page.0 >> shift) & ((1u64 << bits) - 1))) as usize
}

// Bits 63..12 of an upper word.
#[inline(always)]
fn next_base(word: u64) -> ByteAddress
    ensures { result ≡ next_base word }
{
    ByteAddress((word >> 12) << 12)
}

// The byte address of a memory word.
#[inline(always)]
fn word_address(place: u64) -> ByteAddress
    requires { place * word_bytes < 2 ^ 64 }
    ensures { result ≡ word_address place }
{
    ByteAddress(place * WORD_BYTES)
}

// What the content of the memory word at a place gives, with `below` levels below its table.
#[inline(always)]
#[tactic(auto, using(crate::proofs::StepLaws::lowest, crate::proofs::StepLaws::upper), unfolding(profile::specs::Walk::leads))]
fn turn(below: u64, bits: u64, place: u64, content: u64) -> Result<ByteAddress, Walked>
    requires { (bits ≤ most_table_code + code_bits) × (place * word_bytes < 2 ^ 64) }
    ensures { result ≡ next below bits place content }
{
    if below == 0 {
        return Err(Walked {
            found: Ok(Frame {
                word: word_address(place),
                content,
            }),
            words: 1,
        });
    }
    let base = next_base(content);
    if content % 4 == 0 || !aligned(bits, base) {
        return Err(Walked {
            found: Err(WalkError::Forbidden {
                word: word_address(place),
            }),
            words: 1,
        });
    }
    Ok(base)
}

// One level of the walk, with `below` levels below it: the base of the next table, or the end of the walk, with the words that this level read.
#[inline(always)]
#[tactic(auto, using(crate::proofs::StepLaws::word_below), unfolding(crate::specs::Turn::stepped))]
pub(crate) fn step(
    memory: &[u64],
    below: u64,
    bits: u64,
    base: ByteAddress,
    page: PageNumber,
) -> Result<ByteAddress, Walked>
    requires { (bits ≤ most_table_code + code_bits) × (bits * below < 64) × (aligned bits base ≡ true) }
    ensures { result ≡ stepped memory.now below bits base page }
{
    let at = place(below, bits, base, page);
    let Some(content) = memory.get(at) else {
        return Err(Walked {
            found: Err(WalkError::Outside {
                word: word_address(at as u64),
            }),
            words: 0,
        });
    };
    turn(below, bits, at as u64, *content)
}

// The walk of a page by an entry whose table can be walked.
#[inline(always)]
fn walk(memory: &[u64], entry: TranslationEntry, page: PageNumber) -> Walked
    requires { Shaped entry }
    ensures { result ≡ counted (walk memory.now entry page) }
{
    let bits = entry.table + CODE_BITS;
    let mut base = ByteAddress(entry.base);
    for read in 0..entry.levels {
        match step(memory, entry.levels - read - 1, bits, base, page) {
            Ok(lower) => base = lower,
            Err(end) => {
                return Walked {
                    found: end.found,
                    words: read + end.words,
                };
            }
        }
    }
    Walked {
        found: Err(WalkError::Forbidden { word: NO_WORD }),
        words: entry.levels,
    }
}

/// The walk of a page by any entry; by one whose table cannot be walked nothing is read.
#[inline(always)]
pub fn walk_page(memory: &[u64], entry: TranslationEntry, page: PageNumber) -> Walked
    ensures { result ≡ counted (walked_page memory.now entry page) }
{
    if is_walkable(entry) {
        walk(memory, entry, page)
    } else {
        Walked {
            found: Err(WalkError::Forbidden { word: NO_WORD }),
            words: 0,
        }
    }
}
