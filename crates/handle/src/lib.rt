// One request on any tables: its answer, and its effect done. Only state and interrupts are written. Defined in crates/profile/specs/Step.antt.
#![tactic(auto)]

ghost use Rattle.std.specs.Prelude.{◌≡◌};
ghost use Rattle.profile.specs.Freeze.{taken};
ghost use Rattle.profile.specs.Step.{act, checked_on, finish, whole};
ghost use Rattle.kinds.specs.declared.answer.Answer.TheVariants.{Done};
ghost use Rattle.kinds.specs.declared.outcome.Check.TheVariants.{Walk};
ghost use Rattle.kinds.specs.declared.outcome.Effect.TheVariants.{Fence};
ghost use Rattle.tables.specs.Lent.{seen, Same, Becomes};
ghost use Rattle.handle.specs.Promise.{Handled};

use decide;
use endpoints;
use fence;
use freeze;
use kinds::answer::Answer;
use kinds::number::PeNumber;
use kinds::outcome::{Check, Effect, Outcome};
use kinds::record::TranslationEntry;
use kinds::request::{DmaRequest, Request};
use msi::interrupts;
use tables::lent::{Live, Tables};

// The peers that a freeze takes with it: those of the PE, or none.
// Kept: a flag, that of `Effect::Freeze`, as the definition `taken` has it.
#[inline(always)]
fn taken(peers: &[u64], pe: PeNumber, with_peers: bool) -> [u64; 4]
    ensures { result ≡ taken with_peers peers.now pe }
{
    if with_peers {
        endpoints::peer_vector(peers, pe)
    } else {
        [0; 4]
    }
}

/// An effect at a PE. N comes first.
#[inline(always)]
#[tactic(auto, unfolding(profile::specs::Step::act, profile::specs::Step::whole))]
pub fn act_at(pes: u64, peers: &[u64], live: &mut Live<'_>, pe: PeNumber, effect: Effect)
    ensures { Becomes live.old live.new (act pes peers.now pe effect (seen live.old)) }
{
    match effect {
        Effect::Keep => {}
        Effect::Freeze {
            error,
            peers: with_peers,
        } => {
            let vector = taken(peers, pe, with_peers);
            freeze::freeze(live.state, pes, vector, pe, error);
        }
        Effect::Release { part } => endpoints::release(live.state, pe, part),
        Effect::Interrupt {
            number,
            priority,
            bits,
        } => interrupts::store(live.interrupts, pe, number, priority, bits),
        Effect::Fence { bit } => fence::set_fence(live.state, pes, bit),
    }
}

/// An outcome of a PE: its effect is done, and its answer returned.
#[inline(always)]
pub fn carry_out(tables: &Tables<'_>, live: &mut Live<'_>, pe: PeNumber, outcome: Outcome) -> Answer
    ensures answers { result ≡ outcome.answer }
    ensures leaves { Becomes live.old live.new (act tables.now.sizes.pes tables.now.peers pe outcome.effect (seen live.old)) }
{
    act_at(tables.sizes.pes, tables.peers, live, pe, outcome.effect);
    outcome.answer
}

/// The fence bit becomes `bit`, which is done.
// The fence is no PE's: its effect is the same at any.
#[inline(always)]
#[tactic(auto, unfolding(profile::specs::Step::act))]
pub fn change_fence(tables: &Tables<'_>, live: &mut Live<'_>, bit: bool) -> Answer
    ensures answers { result ≡ Done }
    ensures leaves { Becomes live.old live.new (whole tables.now.sizes.pes (Fence bit) (seen live.old)) }
{
    let effect = Effect::Fence { bit };
    act_at(tables.sizes.pes, tables.peers, live, PeNumber(0), effect);
    Answer::Done
}

/// A DMA of a PE by the walk of its page: the only reader of memory.
#[inline(always)]
pub fn walk(
    tables: &Tables<'_>,
    memory: &[u64],
    pe: PeNumber,
    entry: TranslationEntry,
    dma: DmaRequest,
) -> Outcome
    ensures { result ≡ finish tables.now.installed memory.now (Walk pe entry dma) }
{
    decide::finish(tables.installed, memory, Check::Walk(pe, entry, dma))
}

// All checks before the walk, on tables that are lent to be written. No memory is lent: `memory` is its length, in words of 8 bytes.
#[inline(always)]
fn check_live(tables: &Tables<'_>, memory: usize, live: &Live<'_>, request: Request) -> Check
    ensures { result ≡ checked_on tables.now memory (seen live.now) request }
{
    decide::check(tables, memory, &live.read(), request)
}

/// Any request on any tables.
// Kept: this and `cache_handle::serve` apart: one function by a const parameter takes fewer instructions, and lends the bridge without a cache an empty one.
#[inline(always)]
pub fn handle(tables: &Tables<'_>, memory: &[u64], live: &mut Live<'_>, request: Request) -> Answer
    ensures handled { Handled tables.now memory.now (seen live.old) request result (seen live.new) }
    ensures same { Same live.old live.new }
{
    match check_live(tables, memory.len(), live, request) {
        Check::Kept(answer) => answer,
        Check::Ready(pe, outcome) => carry_out(tables, live, pe, outcome),
        Check::Walk(pe, entry, dma) => {
            let outcome = walk(tables, memory, pe, entry, dma);
            carry_out(tables, live, pe, outcome)
        }
        Check::Fences(bit) => change_fence(tables, live, bit),
    }
}
