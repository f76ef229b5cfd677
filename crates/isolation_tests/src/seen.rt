// Which table words are public or the group's. Tables are numbered from 0 in the order of document 01.
ghost use Rattle.std.specs.Prelude.{◌≡◌};
ghost use Rattle.isolation_tests.specs.Seen.{interrupt_seen, state_seen, seen};

use isolation_groups::{has_mark, is_member};
use profile::limits::{self, ENTRY_WORDS, STATE_WORDS};
use tables::words;

// The tables of which not every word is public.
const ENTRIES: u64 = 1;

const MEMORY: u64 = 2;

const INTERRUPTS: u64 = 4;

const STATE: u64 = 7;

// Kept: as in `msi`, which this crate does not use; one cast.
const INTERRUPT_WORDS: usize = limits::INTERRUPT_WORDS as usize;

// The PE word of an interrupt is public, the other words are its PE's.
#[tactic(auto, unfolding(crate::specs::Seen::interrupt_seen))]
fn interrupt_seen(group: &[u64], interrupts: &[u64], index: usize) -> bool
    ensures { result ≡ interrupt_seen group.now interrupts.now index }
{
    index % INTERRUPT_WORDS == 0
        || is_member(
            group,
            words::pe_word(interrupts, index / INTERRUPT_WORDS * INTERRUPT_WORDS),
        )
}

// The fence word is public, the other words of the state are their PE's.
#[tactic(auto, unfolding(crate::specs::Seen::state_seen))]
fn state_seen(group: &[u64], pes: u64, index: usize) -> bool
    ensures { result ≡ state_seen group.now pes index }
{
    let pe = index as u64 / STATE_WORDS;
    pe == pes && index as u64 % STATE_WORDS == 0 || is_member(group, pe)
}

// Word `index` of a table is public or the group's; `pes` is N.
// Kept: the number of the table and the lists come from C, as `celltimber_seen` has them.
#[tactic(auto, unfolding(crate::specs::Seen::seen))]
pub(crate) fn is_seen(
    group: &[u64],
    pes: u64,
    interrupts: &[u64],
    marks: &[u64],
    table: u64,
    index: usize,
) -> bool
    ensures { result ≡ seen group.now pes interrupts.now marks.now table index }
{
    match table {
        ENTRIES => is_member(group, index as u64 / ENTRY_WORDS),
        MEMORY => has_mark(marks, index),
        INTERRUPTS => interrupt_seen(group, interrupts, index),
        STATE => state_seen(group, pes, index),
        _ => true,
    }
}
