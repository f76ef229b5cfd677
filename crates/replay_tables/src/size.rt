// A size line: whether the lent tables have room for what it asks, and all of them cleared.
ghost use Rattle.std.specs.Prelude.{◌≡◌};
ghost use Rattle.replay_tables.specs.Lent.{pe_room, other_room, room_for, size_line, cleared_to};
ghost use Rattle.replay_tables.specs.declared.Extent.{Extent};
ghost use Rattle.replay_tables.specs.Whole.{whole, Same};

use crate::Extent;
use crate::lent::Lent;
use kinds::record::Lengths;
use profile::limits::{
    ENTRY_WORDS, FENCE_WORDS, INTERRUPT_WORDS, PEER_WORDS, SEGMENT_COUNT, STATE_WORDS, WINDOW_WORDS,
};
use table_lists::clear;

// Whether the tables with words for each PE are long enough; the state has the fence word too.
fn pe_room(pes: u64, lengths: Lengths) -> bool
    ensures { result ≡ pe_room pes lengths }
{
    pes <= lengths.entries / ENTRY_WORDS
        && pes <= lengths.peers / PEER_WORDS
        && FENCE_WORDS <= lengths.state
        && pes <= (lengths.state - FENCE_WORDS) / STATE_WORDS
}

// Whether the lists of interrupts, requesters, memory, windows and segments are long enough.
fn other_room(interrupts: u64, requesters: u64, memory: u64, lengths: Lengths) -> bool
    ensures { result ≡ other_room interrupts requesters memory lengths }
{
    interrupts <= lengths.interrupts / INTERRUPT_WORDS
        && requesters <= lengths.requesters
        && memory <= lengths.memory
        && WINDOW_WORDS <= lengths.windows
        && SEGMENT_COUNT <= lengths.segments
}

// Whether all lists are long enough, for tables of at least one PE.
#[tactic(auto, unfolding(crate::specs::Lent::room_for))]
pub(crate) fn room_for(asked: Extent, lengths: Lengths) -> bool
    ensures { result ≡ room_for (size_line asked) lengths }
{
    let sizes = asked.sizes;
    1 <= sizes.pes
        && pe_room(sizes.pes, lengths)
        && other_room(sizes.interrupts, sizes.requesters, asked.memory, lengths)
}

// All words of all lists 0.
pub(crate) fn clear_all(lent: &mut Lent<'_>)
    ensures cleared { (x : Extent) → whole x lent.new ≡ cleared_to x (whole x lent.old) }
    ensures same { Same lent.old lent.new }
{
    lent.requesters.fill(0);
    clear(lent.entries);
    clear(lent.memory);
    clear(lent.peers);
    clear(lent.interrupts);
    clear(lent.windows);
    lent.segments.fill(0);
    clear(lent.state);
}
