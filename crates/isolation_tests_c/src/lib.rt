// The tests of the isolation theorem's premises that Rust and C call, as a static library: numbers and slices only. A slice passes as its first element's
// address and its length. What each promises is what the function of `isolation_tests` under it promises.
// Kept: numbers and lists one by one: the C interface.
#![tactic(auto)]

ghost use Rattle.std.specs.Prelude.{◌≡◌};
ghost use Rattle.cache_words.specs.Operations.{decoded_operation};
ghost use Rattle.isolation_groups.specs.Member.{member_of};
ghost use Rattle.isolation_tests.specs.Covers.{Covered};
ghost use Rattle.isolation_tests.specs.Group.{flag, operation_number_in, closed};
ghost use Rattle.isolation_tests.specs.Seen.{seen};

use isolation_tests::export;

/// The number of the PE that owns the request of six words, or the operation on the bridge with a translation cache. 65,536 for nobody, for an edit, whose owner
/// is asked of the group by `celltimber_covers`, and where N is above its limit. N, M and R come first.
#[unsafe(no_mangle)]
pub extern "C" fn celltimber_owner(
    pes: u64,
    interrupt_count: u64,
    requester_count: u64,
    requesters: &[u16],
    interrupts: &[u64],
    windows: &[u64],
    segments: &[u16],
    kind: u64,
    a: u64,
    b: u64,
    c: u64,
    d: u64,
    e: u64,
) -> u64
    ensures { result ≡ operation_number_in (record { pes = pes; interrupts = interrupt_count; requesters = requester_count }) requesters.now windows.now segments.now interrupts.now (decoded_operation kind a b c d e) }
{
    export::celltimber_owner(
        pes,
        interrupt_count,
        requester_count,
        requesters,
        interrupts,
        windows,
        segments,
        kind,
        a,
        b,
        c,
        d,
        e,
    )
}

/// 1 if the number is that of a member of the group, else 0.
#[unsafe(no_mangle)]
pub extern "C" fn celltimber_member(group: &[u64], number: u64) -> u64
    ensures { result ≡ flag (member_of group.now number) }
{
    export::celltimber_member(group, number)
}

/// 1 if no PE below N outside the group lists a member below N in its peer vector, else 0. 0 also where N is above its limit.
#[unsafe(no_mangle)]
pub extern "C" fn celltimber_closed(pes: u64, peers: &[u64], group: &[u64]) -> u64
    ensures { result ≡ flag (closed pes group.now peers.now) }
{
    export::celltimber_closed(pes, peers, group)
}

/// Marks exactly the memory words that a walk of a member below N reads for some address of the DMA class: each other word of `marks` becomes 0. `tables` and
/// `under` are room to work in and become 0. 1, or 0 where N is above its limit or one of the three has not the length of memory; all three are then as they were.
#[unsafe(no_mangle)]
pub extern "C" fn celltimber_covers(
    pes: u64,
    entries: &[u64],
    memory: &[u64],
    group: &[u64],
    marks: &mut [u64],
    tables: &mut [u64],
    under: &mut [u64],
) -> u64
    ensures { Covered group.now pes entries.now memory.now marks.old tables.old under.old result marks.new tables.new under.new }
{
    export::celltimber_covers(pes, entries, memory, group, marks, tables, under)
}

/// 1 if word `index` of a table is public or the group's, else 0. N comes first.
#[unsafe(no_mangle)]
pub extern "C" fn celltimber_seen(
    pes: u64,
    interrupts: &[u64],
    marks: &[u64],
    group: &[u64],
    table: u64,
    index: usize,
) -> u64
    ensures { result ≡ flag (seen group.now pes interrupts.now marks.now table index) }
{
    export::celltimber_seen(pes, interrupts, marks, group, table, index)
}
