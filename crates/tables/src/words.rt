// A table read and written by index, at any index: a word that is not there reads as 0, or as no PE's number, and is not written.
ghost use Rattle.std.specs.Prelude.{◌≡◌, set};
ghost use Rattle.kinds.specs.Words.{at, pe_at};

use kinds::number::NO_PE;

/// The word at `index`, or 0 where the table has none.
#[inline(always)]
pub fn word(table: &[u64], index: usize) -> u64
    ensures { result ≡ at table.now index }
{
    table.get(index).copied().unwrap_or(0)
}

/// The number of a PE at `index`, or `NO_PE`, the definition's number for no PE, where the table has none.
#[inline(always)]
pub fn pe_word(table: &[u64], index: usize) -> u64
    ensures { result ≡ pe_at table.now index }
{
    table.get(index).copied().unwrap_or(NO_PE)
}

/// The number of a PE at `index` of a table of 16-bit words, or `NO_PE` where the table has none.
// Kept: three functions, each of one line, that differ in a constant or a width. `pe_at` in the contract is over numbers, which a list of any `T` has by a trait of its own alone.
#[inline(always)]
pub fn short_pe_word(table: &[u16], index: usize) -> u64
    ensures { result ≡ pe_at table.now index }
{
    table.get(index).map_or(NO_PE, |pe| u64::from(*pe))
}

/// The word at `index` becomes `value`. Where the table has no such word, nothing is written.
#[inline(always)]
pub fn put(table: &mut [u64], index: usize, value: u64)
    ensures { table.new ≡ set table.old index value }
{
    if index < table.len() {
        table[index] = value;
    }
}
