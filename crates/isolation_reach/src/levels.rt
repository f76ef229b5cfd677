// The words of the tables of one level, and the tables that they lead to.
ghost use Rattle.std.specs.Prelude.{◌≡◌, ◌+◌, ◌*◌, ◌<◌, ℕ, length, replicate};
ghost use Rattle.std.specs.Option.{unwrap_or};
ghost use Rattle.isolation_reach.specs.Marks.{index_of, first_of, table_of, leads_to, within, mark_turn, table_turn, marked_in, tables_over, tables_under, marks_from};
ghost use Rattle.isolation_reach.specs.Room.{Marked};

use crate::marks::Gap;
use crate::room::Room;
use dma_pages::page_tables::aligned;
use isolation_groups::has_mark;
use kinds::number::ByteAddress;
use table_lists;
use tables::words;

// A level of tables that have 2^bits words each: the page looked up has the word at `index` of the table at word `table`.
#[derive(Clone, Copy)]
struct Level {
    bits: u64,
    table: usize,
    index: u64,
    ghost few: { bits < 64 },
}

// The index of a page in a table of 2^bits words with `below` levels below it.
#[tactic(auto, using(kinds::proofs::Powers::masked))]
fn index_of(bits: u64, below: u64, page: u64) -> u64
    requires { (bits < 64) × (bits * below < 64) }
    ensures { result ≡ index_of bits below page }
{
    (page >> (bits * below)) & ((1 << bits) - 1)
}

// The first word of the table that word j is in.
#[tactic(auto, unfolding(crate::specs::Marks::first_of))]
fn first_of(level: Level, j: u64) -> u64
    ensures { result ≡ first_of level.bits j }
{
    j - index_of(level.bits, 0, j)
}

// The first word of the table that an upper word leads to.
#[tactic(auto, unfolding(crate::specs::Marks::table_of, profile::specs::Walk::leads))]
fn table_of(bits: u64, word: u64) -> Option<usize>
    ensures { (none : ℕ) → unwrap_or result none ≡ table_of bits word none }
{
    let base = word / 4096 * 4096;
    if word % 4 != 0 && aligned(bits, ByteAddress(base)) {
        Some((base / 8) as usize)
    } else {
        None
    }
}

// The first word of the table that the word at an index of the table at word `table` leads to, or the length of memory.
// Kept: a number for no table, as in the definition, and not an `Option`: no word is there, so that no caller has a case for it.
#[tactic(auto, unfolding(crate::specs::Marks::leads_to))]
fn leads_to(memory: &[u64], bits: u64, table: usize, index: u64) -> usize
    ensures { result ≡ leads_to memory.now bits (table + index) }
{
    let none = memory.len();
    if table < none && index < (none - table) as u64 {
        table_of(bits, memory[table + index as usize]).unwrap_or(none)
    } else {
        none
    }
}

// Word j is in a table that is marked, or in the table of the level but at none of `count` indexes from that of the level.
#[tactic(auto, unfolding(crate::specs::Marks::within))]
fn within(tables: &[u64], level: Level, count: u64, j: usize) -> bool
    ensures { result ≡ within tables.now level.bits level.table level.index count j }
{
    let first = first_of(level, j as u64) as usize;
    let index = index_of(level.bits, 0, j as u64);
    has_mark(tables, first)
        || first == level.table && (index < level.index || count <= index - level.index)
}

// Kept: lists and not the room, as in `mark_upper`.
fn mark_word(tables: &[u64], marks: &mut [u64], level: Level, count: u64, j: usize)
    ensures { marks.new ≡ mark_turn tables.now level.bits level.table level.index count marks.old j }
{
    if within(tables, level, count, j) {
        words::put(marks, j, 1);
    }
}

// Marks each of the first `words` memory words that is in the tables.
#[tactic(auto, using(kinds::proofs::TurnsLaws::turns_next), unfolding(crate::specs::Marks::marked_in, kinds::specs::Turns::turns))]
fn mark_words(tables: &[u64], marks: &mut [u64], words: usize, level: Level, count: u64)
    ensures { marks.new ≡ marked_in words tables.now level.bits level.table level.index count marks.old }
{
    for j in 0..words {
        mark_word(tables, marks, level, count, j);
    }
}

fn mark_table(memory: &[u64], tables: &[u64], under: &mut [u64], level: Level, j: usize)
    ensures { under.new ≡ table_turn memory.now tables.now level.bits level.table level.index under.old j }
{
    if within(tables, level, 1, j) {
        words::put(under, leads_to(memory, level.bits, j, 0), 1);
    }
}

// Marks the first word of each table that a word of the tables leads to; that of the level is left out.
#[tactic(auto, using(kinds::proofs::TurnsLaws::turns_next), unfolding(crate::specs::Marks::tables_over, kinds::specs::Turns::turns))]
fn mark_tables(memory: &[u64], tables: &[u64], under: &mut [u64], level: Level)
    ensures { under.new ≡ tables_over memory.now tables.now level.bits level.table level.index under.old }
{
    for j in 0..memory.len() {
        mark_table(memory, tables, under, level, j);
    }
}

// Kept: a loop that counts by hand: `copy_from_slice` calls memmove, and the archive calls nothing but memset (tests/host.test, docs/HOST.md).
fn copy(to: &mut [u64], from: &[u64])
    requires { length to.old ≡ length from.now }
    ensures { to.new ≡ from.now }
{
    let mut i = 0;
    while i < to.len() {
        to[i] = from[i];
        i += 1;
    }
}

// A level that has levels below it: marks its words, and `tables` becomes the tables below. The result is the table that the word of the level leads to.
// Kept: the four lists and not the room: through the room the proof of what `tables` becomes did not close.
fn mark_upper(
    memory: &[u64],
    marks: &mut [u64],
    tables: &mut [u64],
    under: &mut [u64],
    level: Level,
) -> usize
    requires { (length tables.old ≡ length memory.now) × (length under.old ≡ length memory.now) }
    ensures marks { marks.new ≡ marked_in (length memory.now) tables.old level.bits level.table level.index 0 marks.old }
    ensures tables { tables.new ≡ tables_under memory.now tables.old level.bits level.table level.index }
    ensures leads { result ≡ leads_to memory.now level.bits (level.table + level.index) }
{
    mark_words(tables, marks, memory.len(), level, 0);
    table_lists::clear(under);
    mark_tables(memory, tables, under, level);
    copy(tables, under);
    leads_to(memory, level.bits, level.table, level.index)
}

// Marks the words that walks read from the table at word `first`, with `levels` levels below it; the pages of the gap are not walked.
pub(crate) fn mark_levels(room: &mut Room<'_>, bits: u64, gap: Gap, levels: u64, first: usize)
    requires { (bits < 64) × (bits * levels < 64) }
    ensures { Marked room.old room.new (marks_from room.old.memory.now bits gap.page gap.count levels (replicate (length room.old.memory.now) 0) first room.old.marks.now) }
{
    table_lists::clear(room.tables);
    let mut table = first;
    for below in (1..=levels).rev() {
        let index = index_of(bits, below, gap.page);
        let level = Level { bits, table, index };
        table = mark_upper(room.memory, room.marks, room.tables, room.under, level);
    }
    let index = index_of(bits, 0, gap.page);
    let level = Level { bits, table, index };
    mark_words(room.tables, room.marks, room.memory.len(), level, gap.count);
}
