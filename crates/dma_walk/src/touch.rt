// Whether the walk of a page reads a memory word.
ghost use Rattle.std.specs.Prelude.{◌≡◌};
ghost use Rattle.kinds.specs.Has.{has};
ghost use Rattle.profile.specs.Walk.{walk, walked_page};
ghost use Rattle.dma_walk.specs.Turn.{Shaped};

use crate::walk::{place, step};
use dma_pages::page_tables::is_walkable;
use kinds::number::{ByteAddress, PageNumber};
use kinds::record::TranslationEntry;
use profile::limits::CODE_BITS;

/// By any entry; by one whose table cannot be walked nothing is read.
#[inline(always)]
#[tactic(auto, unfolding(kinds::specs::Has::has))]
pub fn touches(memory: &[u64], entry: TranslationEntry, page: PageNumber, word: u64) -> bool
    ensures { result ≡ has word (walked_page memory.now entry page).reads }
{
    is_walkable(entry) && reads_word(memory, entry, page, word)
}

// By an entry whose table can be walked.
#[inline(always)]
fn reads_word(memory: &[u64], entry: TranslationEntry, page: PageNumber, word: u64) -> bool
    requires { Shaped entry }
    ensures { result ≡ has word (walk memory.now entry page).reads }
{
    let bits = entry.table + CODE_BITS;
    let mut base = ByteAddress(entry.base);
    for below in (0..entry.levels).rev() {
        let at = place(below, bits, base, page);
        if at as u64 == word {
            return at < memory.len();
        }
        match step(memory, below, bits, base, page) {
            Ok(lower) => base = lower,
            Err(_) => return false,
        }
    }
    false
}
