// One request or operation on the bridge with a translation cache, on any tables and any contents of the cache. Memory is written by edits alone. Defined in
// crates/cache/specs/Cache.antt.
#![tactic(auto)]

ghost use Rattle.std.specs.Prelude.{◌≡◌, ◌&&◌, true, cond, eqb, length, Ok, Err};
ghost use Rattle.cache.specs.Cache.{looked, filled};
ghost use Rattle.kinds.specs.declared.answer.Reason.TheVariants.{TableLength};
ghost use Rattle.kinds.specs.declared.outcome.Check.TheVariants.{Walk};
ghost use Rattle.profile.specs.Step.{finish};
ghost use Rattle.profile.specs.Tables.{sized, lengths};
ghost use Rattle.tables.specs.Lent.{seen, Same};
ghost use Rattle.cache.specs.Slots.{cache_words};
ghost use Rattle.cache_dma.specs.Went.{Went};
ghost use Rattle.cache_words.specs.Operations.{maintained};
ghost use Rattle.cache_edits.specs.Promise.{Edited, Invalidated};
ghost use Rattle.edits.specs.Edits.{checked_by};
ghost use Rattle.cache_handle.specs.Lent.{held};
ghost use Rattle.cache_handle.specs.Promise.{Served, Operated};

use cache::limits;
use cache_dma;
use cache_edits;
use decide;
use handle;
use kinds::answer::{Answer, Reason};
use kinds::number::PeNumber;
use kinds::outcome::{Check, Outcome};
use kinds::record::{Lengths, TranslationEntry};
use kinds::request::{DmaRequest, Operation, Request, Scope};
use outcomes;
use tables::lent::{Live, LiveRef, Tables};

// The words of the cache.
const CACHE_WORDS: usize = limits::CACHE_WORDS as usize;

// A check after the cache was looked at: a walk that is a hit whose word permits the DMA is answered here.
#[inline(always)]
#[tactic(auto, using(crate::proofs::OperateLaws::a_hit, crate::proofs::OperateLaws::a_miss), unfolding(cache::specs::Cache::looked))]
fn look(installed: u64, cache: &[u64], check: Check) -> Check
    ensures { result ≡ looked installed cache.now check }
{
    match check {
        Check::Walk(pe, entry, dma) => match cache_dma::look(installed, cache, pe, entry, dma) {
            Some(outcome) => Check::Ready(pe, outcome),
            None => check,
        },
        Check::Kept(_) | Check::Ready(..) | Check::Fences(_) => check,
    }
}

/// All checks, of tables whose lengths are taken to be `lengths`, in their own words, and the cache, which is measured. No memory is lent.
// Kept: the length of the cache is asked here and in `fitted_pes`: here the other lengths are asked by `decide`, and would be asked twice.
#[inline(always)]
#[tactic(auto, unfolding(profile::specs::Step::checked, cache::specs::Cache::looked))]
pub fn check_by_lengths(
    tables: &Tables<'_>,
    lengths: Lengths,
    live: &LiveRef<'_>,
    cache: &[u64],
    request: Request,
) -> Check
    ensures { result ≡ looked tables.now.installed cache.now (checked_by (eqb (length cache.now) cache_words && sized tables.now.sizes lengths) tables.now live.now request) }
{
    if cache.len() != CACHE_WORDS {
        return outcomes::refuse(Reason::TableLength);
    }
    let check = decide::check_by_lengths(tables, lengths, live, request);
    look(tables.installed, cache, check)
}

/// All checks, and the cache. No memory is lent: `memory` is its length, in words of 8 bytes.
#[inline(always)]
pub fn check(
    tables: &Tables<'_>,
    memory: usize,
    live: &LiveRef<'_>,
    cache: &[u64],
    request: Request,
) -> Check
    ensures { result ≡ looked tables.now.installed cache.now (checked_by (eqb (length cache.now) cache_words && sized tables.now.sizes (lengths tables.now memory live.now)) tables.now live.now request) }
{
    check_by_lengths(tables, tables.lengths(memory, live), live, cache, request)
}

// The same on tables that are lent to be written.
#[inline(always)]
fn check_live(
    tables: &Tables<'_>,
    memory: usize,
    live: &Live<'_>,
    cache: &[u64],
    request: Request,
) -> Check
    ensures { result ≡ looked tables.now.installed cache.now (checked_by (eqb (length cache.now) cache_words && sized tables.now.sizes (lengths tables.now memory (seen live.now))) tables.now (seen live.now) request) }
{
    check(tables, memory, &live.read(), cache, request)
}

// The walk, the only reader of memory; its slot is filled where the DMA passes.
#[inline(always)]
fn walk(
    tables: &Tables<'_>,
    memory: &[u64],
    cache: &mut [u64],
    pe: PeNumber,
    entry: TranslationEntry,
    dma: DmaRequest,
) -> Outcome
    ensures { Went result cache.new (finish tables.now.installed memory.now (Walk pe entry dma)) (filled tables.now.installed memory.now cache.old (Walk pe entry dma)) }
{
    cache_dma::walk_and_fill(tables.installed, memory, cache, pe, entry, dma)
}

/// A request of the bridge with a cache. Memory is not written.
// Kept: apart from `handle::handle`, as said there.
#[inline(always)]
pub fn serve(
    tables: &Tables<'_>,
    memory: &[u64],
    live: &mut Live<'_>,
    cache: &mut [u64],
    request: Request,
) -> Answer
    ensures served { Served true tables.now (held memory.now (seen live.old) cache.old) request result (held memory.now (seen live.new) cache.new) }
    ensures same { Same live.old live.new }
{
    match check_live(tables, memory.len(), live, cache, request) {
        Check::Kept(answer) => answer,
        Check::Ready(pe, outcome) => handle::carry_out(tables, live, pe, outcome),
        Check::Walk(pe, entry, dma) => {
            let outcome = walk(tables, memory, cache, pe, entry, dma);
            handle::carry_out(tables, live, pe, outcome)
        }
        Check::Fences(bit) => handle::change_fence(tables, live, bit),
    }
}

// N, or reason 1: every number and length is on the table of the profile, and the cache has its length.
#[inline(always)]
fn fitted_pes(
    tables: &Tables<'_>,
    memory: usize,
    live: &LiveRef<'_>,
    cache: &[u64],
) -> Result<u16, Reason>
    ensures { result ≡ cond (eqb (length cache.now) cache_words && sized tables.now.sizes (lengths tables.now memory live.now)) (Ok tables.now.sizes.pes) (Err TableLength) }
{
    match cache.len() {
        CACHE_WORDS => tables.sized_pes(memory, live),
        _ => Err(Reason::TableLength),
    }
}

// An edit where reason 1 does not hold; `pes` is N.
#[inline(always)]
fn edit(
    pes: u16,
    tables: &Tables<'_>,
    memory: &mut [u64],
    cache: &mut [u64],
    word: u64,
    value: u64,
) -> Answer
    ensures { Edited pes tables.now.entries memory.old cache.old word value result memory.new cache.new }
{
    cache_edits::edit(pes, tables.entries, memory, cache, word, value)
}

// An invalidate where reason 1 does not hold; `pes` is N.
#[inline(always)]
fn invalidate(pes: u16, tables: &Tables<'_>, cache: &mut [u64], scope: Scope) -> Answer
    ensures { Invalidated pes tables.now.entries cache.old scope result cache.new }
{
    cache_edits::invalidate(pes, tables.entries, cache, scope)
}

/// An operation that the bridge with a cache alone has: an edit or an invalidate. State and interrupts are not written. A request is answered here as words that
/// name nothing; `operate` serves it.
#[inline(always)]
pub fn maintain(
    tables: &Tables<'_>,
    memory: &mut [u64],
    live: &LiveRef<'_>,
    cache: &mut [u64],
    operation: Operation,
) -> Answer
    ensures { Operated tables.now (held memory.old live.now cache.old) (maintained operation) result (held memory.new live.now cache.new) }
{
    match fitted_pes(tables, memory.len(), live, cache) {
        Err(reason) => outcomes::refusal(reason),
        Ok(pes) => match operation {
            Operation::Plain(_) => outcomes::refusal(Reason::BadRequest),
            Operation::Edit { word, value } => edit(pes, tables, memory, cache, word, value),
            Operation::Invalidate(scope) => invalidate(pes, tables, cache, scope),
        },
    }
}

/// Any operation of the bridge with a cache.
#[inline(always)]
pub fn operate(
    tables: &Tables<'_>,
    memory: &mut [u64],
    live: &mut Live<'_>,
    cache: &mut [u64],
    operation: Operation,
) -> Answer
    ensures operated { Operated tables.now (held memory.old (seen live.old) cache.old) operation result (held memory.new (seen live.new) cache.new) }
    ensures same { Same live.old live.new }
{
    match operation {
        Operation::Plain(request) => serve(tables, memory, live, cache, request),
        _ => maintain(tables, memory, &live.read(), cache, operation),
    }
}
