// Marks on the memory words that the walks of a group's members read for an address of the DMA class.
ghost use Rattle.std.specs.Prelude.{◌≡◌, length, replicate};
ghost use Rattle.kinds.specs.Turns.{turns};
ghost use Rattle.isolation_reach.specs.Marks.{marks_by};
ghost use Rattle.profile.specs.Entry.{entry_in, half};
ghost use Rattle.isolation_reach.specs.Footprint.{pe_turn, MembersMarked};
ghost use Rattle.isolation_reach.specs.Room.{Marked};

use crate::marks;
use crate::room::Room;
use dma_entry::addresses;
use isolation_groups;
use kinds::number::{ByteAddress, PeNumber};
use table_lists;

// An address that picks the second record of a PE.
const SECOND: u64 = 0x800_0000_0000_0000;

// Marks the words that walks by the record of PE `pe` that `address` picks read.
fn mark_record(room: &mut Room<'_>, entries: &[u64], pe: u16, address: ByteAddress)
    ensures { Marked room.old room.new (marks_by room.old.memory.now (entry_in entries.now (record { 0 = pe }) (half address)) (half address) room.old.marks.now) }
{
    let entry = addresses::entry_of(entries, PeNumber(pe), address);
    marks::mark_entry(room, entry, addresses::half_of(address));
}

// Marks the words that walks of PE `pe` read, if it is a member.
#[tactic(auto, unfolding(crate::specs::Footprint::pe_turn))]
fn mark_pe(room: &mut Room<'_>, group: &[u64], entries: &[u64], pe: u16)
    ensures { Marked room.old room.new (pe_turn group.now entries.now room.old.memory.now room.old.marks.now pe) }
{
    if isolation_groups::is_member(group, u64::from(pe)) {
        mark_record(room, entries, pe, ByteAddress(0));
        mark_record(room, entries, pe, ByteAddress(SECOND));
    }
}

// Marks the words that walks of members among the first `pes` PEs read.
#[tactic(auto, using(kinds::proofs::TurnsLaws::turns_next), unfolding(kinds::specs::Turns::turns))]
fn mark_pes(room: &mut Room<'_>, pes: u16, group: &[u64], entries: &[u64])
    ensures { Marked room.old room.new (turns (pe_turn group.now entries.now room.old.memory.now) room.old.marks.now pes) }
{
    for pe in 0..pes {
        mark_pe(room, group, entries, pe);
    }
}

// The same, and then the lists to work in become 0.
fn mark_and_clear(room: &mut Room<'_>, pes: u16, group: &[u64], entries: &[u64])
    ensures marked { Marked room.old room.new (turns (pe_turn group.now entries.now room.old.memory.now) room.old.marks.now pes) }
    ensures tables { room.new.tables.now ≡ replicate (length room.old.tables.now) 0 }
    ensures under { room.new.under.now ≡ replicate (length room.old.under.now) 0 }
{
    mark_pes(room, pes, group, entries);
    table_lists::clear(room.tables);
    table_lists::clear(room.under);
}

/// Marks the words that walks of members read, and no others. `tables` and `under` are room to work in and become 0; nothing is marked where they have not
/// the length of memory.
// Kept: the lists one by one: `MembersMarked`, the promise of this public function, is for lists of any lengths, and `Room` begins where they are tested.
#[tactic(auto, unfolding(crate::specs::Footprint::members_marks, crate::specs::Footprint::room_after))]
pub fn mark_members(
    pes: u16,
    group: &[u64],
    entries: &[u64],
    memory: &[u64],
    marks: &mut [u64],
    tables: &mut [u64],
    under: &mut [u64],
)
    ensures { MembersMarked pes group.now entries.now memory.now marks.old tables.old under.old marks.new tables.new under.new }
{
    table_lists::clear(marks);
    if tables.len() == memory.len() && under.len() == memory.len() {
        let mut room = Room {
            memory,
            marks,
            tables,
            under,
        };
        mark_and_clear(&mut room, pes, group, entries);
    }
}
