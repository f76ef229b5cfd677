// What the functions that Rust and C call do: numbers and slices only.
ghost use Rattle.std.specs.Prelude.{◌≡◌};
ghost use Rattle.bridge.specs.CachedPromise.{RanCached};
ghost use Rattle.bridge.specs.Promise.{RanAll};
ghost use Rattle.cache_handle.specs.Lent.{lent};
ghost use Rattle.tables.specs.Tables.{tables, live};

use crate::{cached_run, run};
use kinds::record::Sizes;
use tables::lent::{Live, Tables};

// N, M and R.
fn sizes_of(pes: u64, interrupt_count: u64, requester_count: u64) -> Sizes
    ensures { result ≡ record { pes = pes; interrupts = interrupt_count; requesters = requester_count } }
{
    Sizes {
        pes,
        interrupts: interrupt_count,
        requesters: requester_count,
    }
}

/// Serves the requests in `requests` on the lent tables, and writes their answers. N, M, R and the installed size in bytes come first.
// Kept: each function takes its numbers and lists one by one, as the C interface has them (crates/bridge_c), and so makes its `Tables` by itself.
pub fn celltimber_run(
    pes: u64,
    interrupt_count: u64,
    requester_count: u64,
    installed: u64,
    requesters: &[u16],
    entries: &[u64],
    memory: &[u64],
    peers: &[u64],
    interrupts: &mut [u64],
    windows: &[u64],
    segments: &[u16],
    state: &mut [u64],
    requests: &[u64],
    answers: &mut [u64],
) -> usize
    ensures { RanAll (tables (record { pes = pes; interrupts = interrupt_count; requesters = requester_count }) installed requesters.now entries.now peers.now windows.now segments.now) memory.now requests.now (live state.old interrupts.old) answers.old result (live state.new interrupts.new) answers.new }
{
    let tables = Tables {
        sizes: sizes_of(pes, interrupt_count, requester_count),
        installed,
        requesters,
        entries,
        peers,
        windows,
        segments,
    };
    let mut live = Live { state, interrupts };
    run::run(&tables, memory, &mut live, requests, answers)
}

/// The same with a translation cache: memory and cache are lent to be written, and lists have edits and invalidates too. A sequence starts with the invalidate for
/// all, which the caller sends: nothing here empties the cache by itself.
pub fn celltimber_cached_run(
    pes: u64,
    interrupt_count: u64,
    requester_count: u64,
    installed: u64,
    requesters: &[u16],
    entries: &[u64],
    memory: &mut [u64],
    peers: &[u64],
    interrupts: &mut [u64],
    windows: &[u64],
    segments: &[u16],
    state: &mut [u64],
    cache: &mut [u64],
    requests: &[u64],
    answers: &mut [u64],
) -> usize
    ensures { RanCached (tables (record { pes = pes; interrupts = interrupt_count; requesters = requester_count }) installed requesters.now entries.now peers.now windows.now segments.now) requests.now (lent memory.old state.old interrupts.old cache.old) answers.old result (lent memory.new state.new interrupts.new cache.new) answers.new }
{
    let tables = Tables {
        sizes: sizes_of(pes, interrupt_count, requester_count),
        installed,
        requesters,
        entries,
        peers,
        windows,
        segments,
    };
    let mut live = Live { state, interrupts };
    cached_run::cached_run(&tables, memory, &mut live, cache, requests, answers)
}
