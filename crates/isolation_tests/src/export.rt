// What the functions that Rust and C call do: numbers and slices only.
// Kept: each function takes its numbers and lists one by one, as the C interface has them (crates/isolation_tests_c).
ghost use Rattle.std.specs.Prelude.{◌≡◌};
ghost use Rattle.cache_words.specs.Operations.{decoded_operation};
ghost use Rattle.edits.specs.Edits.{scope_owner};
ghost use Rattle.isolation_tests.specs.Group.{flag, owner_number, operation_number_in, closed};
ghost use Rattle.isolation_groups.specs.Member.{member_of};
ghost use Rattle.isolation_tests.specs.Covers.{Covered, coverable};
ghost use Rattle.isolation_tests.specs.Seen.{seen};

use crate::{closed, seen};
use cache_lists;
use isolation_groups;
use isolation_reach::footprint;
use kinds::answer::Reason;
use kinds::number::{NO_PE, PeNumber};
use kinds::request::{Operation, Scope};
use owners;
use profile::limits::MOST_PES;

#[tactic(auto, unfolding(crate::specs::Group::owner_number))]
fn owner_number(owner: Result<PeNumber, Reason>) -> u64
    ensures { result ≡ owner_number owner }
{
    owner.map_or(NO_PE, |pe| u64::from(pe.0))
}

// The number of the PE that an invalidate names, if it is below N. N comes first.
#[tactic(auto, unfolding(crate::specs::Group::owner_number))]
fn scope_number(pes: u16, scope: Scope) -> u64
    ensures { result ≡ owner_number (scope_owner pes scope) }
{
    match scope {
        Scope::All => NO_PE,
        Scope::Pe { pe } | Scope::Address { pe, .. } => {
            owner_number(owners::named_pe(Reason::BadFirmware, pes, pe))
        }
    }
}

/// The number of the PE that owns the request of six words, or the operation on the bridge with a translation cache. 65,536 for nobody, for an edit, whose owner
/// is asked of the group by `celltimber_covers`, and where N is above its limit. N, M and R come first.
#[tactic(auto, using(crate::proofs::Laws::past_nobody), unfolding(crate::specs::Group::operation_number_in, crate::specs::Group::owner_number_in))]
pub fn celltimber_owner(
    pes: u64,
    interrupt_count: u64,
    requester_count: u64,
    requesters: &[u16],
    interrupts: &[u64],
    windows: &[u64],
    segments: &[u16],
    kind: u64,
    a: u64,
    b: u64,
    c: u64,
    d: u64,
    e: u64,
) -> u64
    ensures { result ≡ operation_number_in (record { pes = pes; interrupts = interrupt_count; requesters = requester_count }) requesters.now windows.now segments.now interrupts.now (decoded_operation kind a b c d e) }
{
    if pes > MOST_PES {
        return NO_PE;
    }
    let pes = pes as u16;
    match cache_lists::decode_operation(kind, a, b, c, d, e) {
        Operation::Plain(request) => owner_number(owners::owner_of(
            pes,
            interrupt_count,
            requester_count,
            requesters,
            interrupts,
            windows,
            segments,
            request,
        )),
        Operation::Edit { .. } => NO_PE,
        Operation::Invalidate(scope) => scope_number(pes, scope),
    }
}

/// 1 if the number is that of a member of the group, else 0.
#[tactic(auto, unfolding(crate::specs::Group::flag))]
pub fn celltimber_member(group: &[u64], number: u64) -> u64
    ensures { result ≡ flag (member_of group.now number) }
{
    u64::from(isolation_groups::is_member(group, number))
}

/// 1 if no PE below N outside the group lists a member below N in its peer vector, else 0. 0 also where N is above its limit.
#[tactic(auto, unfolding(crate::specs::Group::flag, crate::specs::Group::closed))]
pub fn celltimber_closed(pes: u64, peers: &[u64], group: &[u64]) -> u64
    ensures { result ≡ flag (closed pes group.now peers.now) }
{
    u64::from(pes <= MOST_PES && !closed::any_outsider_lists(group, peers, pes as u16))
}

// N is within its limit, and `marks`, `tables` and `under` have the length of memory.
// Kept: the lists of `celltimber_covers` as C hands them in; their lengths are known after this test alone.
#[tactic(auto, unfolding(crate::specs::Covers::coverable))]
fn is_coverable(pes: u64, marks: &[u64], tables: &[u64], under: &[u64], memory: &[u64]) -> bool
    ensures { result ≡ coverable pes marks.now tables.now under.now memory.now }
{
    pes <= MOST_PES
        && marks.len() == memory.len()
        && tables.len() == memory.len()
        && under.len() == memory.len()
}

/// Marks exactly the memory words that a walk of a member below N reads for some address of the DMA class: each other word of `marks` becomes 0. `tables` and
/// `under` are room to work in and become 0. 1, or 0 where N is above its limit or one of the three has not the length of memory; all three are then as they were.
#[tactic(auto, using(crate::proofs::Laws::few))]
pub fn celltimber_covers(
    pes: u64,
    entries: &[u64],
    memory: &[u64],
    group: &[u64],
    marks: &mut [u64],
    tables: &mut [u64],
    under: &mut [u64],
) -> u64
    ensures { Covered group.now pes entries.now memory.now marks.old tables.old under.old result marks.new tables.new under.new }
{
    if !is_coverable(pes, marks, tables, under, memory) {
        return 0;
    }
    footprint::mark_members(pes as u16, group, entries, memory, marks, tables, under);
    1
}

/// 1 if word `index` of a table is public or the group's, else 0. N comes first.
#[tactic(auto, unfolding(crate::specs::Group::flag))]
pub fn celltimber_seen(
    pes: u64,
    interrupts: &[u64],
    marks: &[u64],
    group: &[u64],
    table: u64,
    index: usize,
) -> u64
    ensures { result ≡ flag (seen group.now pes interrupts.now marks.now table index) }
{
    u64::from(seen::is_seen(group, pes, interrupts, marks, table, index))
}
