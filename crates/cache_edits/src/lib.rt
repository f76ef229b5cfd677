// An edit of a memory word, and an invalidate of the translation cache, on any tables; the test of reason 1 is the caller's. Defined in crates/edits/specs/Edits.antt
// and crates/cache/specs/Cache.antt.
#![tactic(auto)]

ghost use Rattle.std.specs.Prelude.{◌≡◌, true};
ghost use Rattle.edits.specs.Edits.{nameable};
ghost use Rattle.cache.specs.Cache.{names};
ghost use Rattle.cache.specs.Slots.{sweep};
ghost use Rattle.cache_edits.specs.Promise.{Edited, Invalidated};
ghost use Rattle.cache_sweeps.specs.Drops.{of_entries};

use cache_sweeps::{drop_all, drop_page, drop_pe, drop_through};
use kinds::answer::{Answer, Reason};
use kinds::number::PeNumber;
use kinds::request::Scope;
use outcomes;
use tables::words::put;

/// The word is written, and each slot whose walk reads it in memory as it was before is emptied. `pes` is N.
// Kept: N, the lists and the word one by one, as the clause `Edited` has them.
pub fn edit(
    pes: u16,
    entries: &[u64],
    memory: &mut [u64],
    cache: &mut [u64],
    word: u64,
    value: u64,
) -> Answer
    ensures { Edited pes entries.now memory.old cache.old word value result memory.new cache.new }
{
    if word >= memory.len() as u64 {
        return outcomes::refusal(Reason::BadRequest);
    }
    drop_through(pes, entries, memory, cache, word);
    put(memory, word as usize, value);
    Answer::Done
}

/// Each slot that the scope names is emptied, where it names no PE or one below N.
pub fn invalidate(pes: u16, entries: &[u64], cache: &mut [u64], scope: Scope) -> Answer
    ensures { Invalidated pes entries.now cache.old scope result cache.new }
{
    if !is_nameable(pes, scope) {
        return outcomes::refusal(Reason::BadFirmware);
    }
    drop_named(pes, entries, cache, scope);
    Answer::Done
}

fn is_nameable(pes: u16, scope: Scope) -> bool
    ensures { result ≡ nameable pes scope }
{
    match scope {
        Scope::All => true,
        Scope::Pe { pe } | Scope::Address { pe, .. } => pe < u64::from(pes),
    }
}

// Each slot that the scope names is emptied.
#[tactic(auto, using(cache_sweeps::proofs::DropsLaws::all_is, cache_sweeps::proofs::DropsLaws::pe_is))]
fn drop_named(pes: u16, entries: &[u64], cache: &mut [u64], scope: Scope)
    requires { nameable pes scope ≡ true }
    ensures { cache.new ≡ sweep (names (of_entries pes entries.now) scope) cache.old }
{
    match scope {
        Scope::All => drop_all(cache),
        Scope::Pe { pe } => drop_pe(cache, pe),
        Scope::Address { pe, address } => drop_page(entries, cache, PeNumber(pe as u16), address),
    }
}
