// The functions of the bridge that Rust and C call, as a static library: numbers and slices only. A slice passes as its first element's address and its length.
// What each promises is what the function of `bridge` under it promises.
// Kept: numbers and lists one by one: the C interface.
#![tactic(auto)]

ghost use Rattle.std.specs.Prelude.{◌≡◌};
ghost use Rattle.bridge.specs.CachedPromise.{RanCached};
ghost use Rattle.bridge.specs.Promise.{RanAll};
ghost use Rattle.cache_handle.specs.Lent.{lent};
ghost use Rattle.tables.specs.Tables.{tables, live};

use bridge::export;

/// Serves the requests in `requests` on the lent tables, and writes their answers. N, M, R and the installed size in bytes come first.
#[unsafe(no_mangle)]
pub extern "C" fn celltimber_run(
    pes: u64,
    interrupt_count: u64,
    requester_count: u64,
    installed: u64,
    requesters: &[u16],
    entries: &[u64],
    memory: &[u64],
    peers: &[u64],
    interrupts: &mut [u64],
    windows: &[u64],
    segments: &[u16],
    state: &mut [u64],
    requests: &[u64],
    answers: &mut [u64],
) -> usize
    ensures { RanAll (tables (record { pes = pes; interrupts = interrupt_count; requesters = requester_count }) installed requesters.now entries.now peers.now windows.now segments.now) memory.now requests.now (live state.old interrupts.old) answers.old result (live state.new interrupts.new) answers.new }
{
    export::celltimber_run(
        pes,
        interrupt_count,
        requester_count,
        installed,
        requesters,
        entries,
        memory,
        peers,
        interrupts,
        windows,
        segments,
        state,
        requests,
        answers,
    )
}

/// The same with a translation cache: memory and cache are lent to be written, and lists have edits and invalidates too. A sequence starts with the invalidate for
/// all, which the caller sends: nothing here empties the cache by itself.
#[unsafe(no_mangle)]
pub extern "C" fn celltimber_cached_run(
    pes: u64,
    interrupt_count: u64,
    requester_count: u64,
    installed: u64,
    requesters: &[u16],
    entries: &[u64],
    memory: &mut [u64],
    peers: &[u64],
    interrupts: &mut [u64],
    windows: &[u64],
    segments: &[u16],
    state: &mut [u64],
    cache: &mut [u64],
    requests: &[u64],
    answers: &mut [u64],
) -> usize
    ensures { RanCached (tables (record { pes = pes; interrupts = interrupt_count; requesters = requester_count }) installed requesters.now entries.now peers.now windows.now segments.now) requests.now (lent memory.old state.old interrupts.old cache.old) answers.old result (lent memory.new state.new interrupts.new cache.new) answers.new }
{
    export::celltimber_cached_run(
        pes,
        interrupt_count,
        requester_count,
        installed,
        requesters,
        entries,
        memory,
        peers,
        interrupts,
        windows,
        segments,
        state,
        cache,
        requests,
        answers,
    )
}
