// The lent tables of a replay: the words in use, one of them set, all cleared for new sizes. Defined in crates/replay_tables/specs/Lent.antt.
#![tactic(auto)]

pub mod lent;
mod size;
mod table;

ghost use Rattle.std.specs.Prelude.{◌≡◌, min};
ghost use Rattle.replay_tables.specs.Lent.{state_used};
ghost use Rattle.replay_tables.specs.Promise.{DidSet, SizedTo};
ghost use Rattle.replay_tables.specs.Whole.{whole, Same};

use kinds::record::Sizes;
use lent::Lent;
use profile::limits::{
    ENTRY_WORDS, FENCE_WORDS, INTERRUPT_WORDS, PEER_WORDS, SEGMENT_COUNT, STATE_WORDS, WINDOW_WORDS,
};
use replay_text::{BadLine, NoRoom, Reply, Table};
use size::{clear_all, room_for};
use table::{set_state, set_word, short};
use table_lists::{once, used};

/// What the last good size line asked for; zeros before the first one.
#[derive(Clone, Copy, Debug, PartialEq, Eq)]
pub struct Extent {
    pub sizes: Sizes,
    pub memory: u64,
}

/// What became of a line: the extent after it, and what it writes.
#[derive(Clone, Copy, Debug, PartialEq, Eq)]
pub struct Replied {
    pub extent: Extent,
    pub reply: Reply,
}

/// How many words of a state of this length are in use: those of the PEs, and the fence word after them; none where there is no PE.
pub fn state_used(pes: u64, length: usize) -> usize
    ensures { result ≡ min (state_used pes) length }
{
    if pes == 0 {
        return 0;
    }
    let fence = used(pes, STATE_WORDS, length);
    if fence < length {
        fence + FENCE_WORDS as usize
    } else {
        fence
    }
}

/// A set line: a word of a table set. A word that is not in use, or a value too wide for one, is a bad line, and nothing is written.
pub fn set_in(
    extent: Extent,
    lent: &mut Lent<'_>,
    table: Table,
    index: u64,
    value: u64,
) -> Result<(), BadLine>
    ensures set { DidSet (whole extent lent.old) table index value result (whole extent lent.new) }
    ensures same { Same lent.old lent.new }
{
    let sizes = extent.sizes;
    let there = once(sizes.pes);
    match table {
        Table::Requesters => set_word(lent.requesters, sizes.requesters, 1, index, short(value)),
        Table::Entries => set_word(lent.entries, sizes.pes, ENTRY_WORDS, index, Some(value)),
        Table::Memory => set_word(lent.memory, extent.memory, 1, index, Some(value)),
        Table::Peers => set_word(lent.peers, sizes.pes, PEER_WORDS, index, Some(value)),
        Table::Interrupts => set_word(
            lent.interrupts,
            sizes.interrupts,
            INTERRUPT_WORDS,
            index,
            Some(value),
        ),
        Table::Windows => set_word(lent.windows, there, WINDOW_WORDS, index, Some(value)),
        Table::Segments => set_word(lent.segments, there, SEGMENT_COUNT, index, short(value)),
        Table::State => set_state(lent.state, sizes.pes, index, value),
    }
}

/// A size line: all words of all lists 0; where there is no room for its tables, nothing is done.
pub fn size_to(extent: Extent, lent: &mut Lent<'_>, asked: Extent) -> Replied
    ensures sized { SizedTo (whole extent lent.old) asked result.reply (whole result.extent lent.new) }
    ensures same { Same lent.old lent.new }
{
    if room_for(asked, lent.lengths()) {
        clear_all(lent);
        Replied {
            extent: asked,
            reply: Ok(None),
        }
    } else {
        Replied {
            extent,
            reply: Err(NoRoom),
        }
    }
}
