// A request on the bridge's tables: its answer and its effect. Nothing is written. Defined in crates/profile/specs/Step.antt.
#![tactic(auto)]

pub mod forms;

ghost use Rattle.std.specs.Prelude.{◌≡◌, true};
ghost use Rattle.kinds.specs.Outcome.{settled};
ghost use Rattle.kinds.specs.Words.{at};
ghost use Rattle.kinds.specs.declared.outcome.Check.TheVariants.{Kept, Ready, Fences};
ghost use Rattle.profile.specs.Fence.{fence_word, fenced};
ghost use Rattle.profile.specs.Firmware.{on_good, ends, prioritized};
ghost use Rattle.profile.specs.Freeze.{stop_word};
ghost use Rattle.profile.specs.Msi.{interrupt_in};
ghost use Rattle.profile.specs.Owner.{of_requester, of_interrupt, of_hit, owner_in};
ghost use Rattle.profile.specs.Step.{formed, accessed, asked, checked, checked_on, decided, finish};
ghost use Rattle.profile.specs.Tables.{sized};
ghost use Rattle.profile.specs.Windows.{route};
ghost use Rattle.owners.specs.ByOwner.{by_owner};
ghost use Rattle.decide.specs.ByRequester.{dma_of, message_of};
ghost use Rattle.decide.specs.PastFence.{past_fence};

use dma;
use fence;
use firmware;
use kinds::answer::{Answer, Reason};
use kinds::number::{ByteAddress, NO_WORD, PeNumber};
use kinds::outcome::{Check, Effect, ErrorRecord, Outcome};
use kinds::record::Lengths;
use kinds::request::{DmaRequest, Request};
use mmio;
use mmio_windows;
use outcomes;
use owners;
use tables::lent::{LiveRef, Tables};

// The PE of a requester; `pes` is N.
#[inline(always)]
fn requester_of(pes: u16, tables: &Tables<'_>, requester: u64) -> Result<PeNumber, Reason>
    ensures { result ≡ of_requester pes tables.now.sizes.requesters tables.now.requesters requester }
{
    owners::of_requester(pes, tables.sizes.requesters, tables.requesters, requester)
}

// Kept: N of 16 bits beside the tables whose N it is: `tables.sizes.pes` has 64 bits, and a type that says both would be made at the one call of `ask`.
// A DMA, by its requester; `pes` is N.
#[inline(always)]
#[tactic(auto, unfolding(owners::specs::ByOwner::by_owner, crate::specs::ByRequester::dma_of))]
fn by_requester(
    pes: u16,
    tables: &Tables<'_>,
    live: &LiveRef<'_>,
    dma: DmaRequest,
) -> Result<Check, Reason>
    ensures { settled result ≡ by_owner (dma_of tables.now.sizes.interrupts tables.now.installed tables.now.entries live.now.interrupts live.now.state dma) (of_requester pes tables.now.sizes.requesters tables.now.requesters dma.requester) }
{
    let pe = requester_of(pes, tables, dma.requester)?;
    Ok(dma::check_dma(tables, live, pe, dma))
}

// An error message of a PE, with its requester.
#[inline(always)]
#[tactic(auto, unfolding(crate::specs::ByRequester::message_of))]
fn message(pe: PeNumber, requester: u64) -> Check
    ensures { result ≡ message_of requester pe }
{
    let error = ErrorRecord {
        reason: Reason::ErrorMessage,
        value: requester,
        word: NO_WORD,
    };
    Check::Ready(pe, outcomes::done(Effect::Freeze { error, peers: true }))
}

// An error message, by its requester; `pes` is N.
#[inline(always)]
#[tactic(auto, unfolding(owners::specs::ByOwner::by_owner))]
fn error_message(pes: u16, tables: &Tables<'_>, requester: u64) -> Result<Check, Reason>
    ensures { settled result ≡ by_owner (message_of requester) (of_requester pes tables.now.sizes.requesters tables.now.requesters requester) }
{
    let pe = requester_of(pes, tables, requester)?;
    Ok(message(pe, requester))
}

// A fatal message, by its requester; `pes` is N.
#[inline(always)]
#[tactic(auto, unfolding(owners::specs::ByOwner::by_owner))]
fn fatal_message(pes: u16, tables: &Tables<'_>, requester: u64) -> Result<Check, Reason>
    ensures { settled result ≡ by_owner (λ _. Fences true) (of_requester pes tables.now.sizes.requesters tables.now.requesters requester) }
{
    requester_of(pes, tables, requester)?;
    Ok(Check::Fences(true))
}

// A load or store, by its window; `stopped` is its answer where the PE is MMIO stopped.
#[inline(always)]
fn access(
    pes: u16,
    tables: &Tables<'_>,
    live: &LiveRef<'_>,
    address: ByteAddress,
    stopped: Answer,
) -> Check
    ensures { result ≡ by_owner (λ p. Kept (accessed (route tables.now.windows tables.now.segments address) p (at live.now.state (stop_word p)) stopped)) (of_hit pes (route tables.now.windows tables.now.segments address)) }
{
    let hit = mmio_windows::route(tables.windows, tables.segments, address);
    mmio::access_of(pes, live.state, hit, stopped)
}

// The end of an interrupt; `pes` is N.
#[inline(always)]
fn end(pes: u16, tables: &Tables<'_>, live: &LiveRef<'_>, number: u64) -> Check
    ensures { result ≡ by_owner (λ p. Ready p (on_good (interrupt_in live.now.interrupts number) (ends number (interrupt_in live.now.interrupts number)))) (of_interrupt pes tables.now.sizes.interrupts live.now.interrupts number) }
{
    firmware::end(pes, tables.sizes.interrupts, live.interrupts, number)
}

// A new priority of an interrupt; `pes` is N.
#[inline(always)]
fn prioritize(
    pes: u16,
    tables: &Tables<'_>,
    live: &LiveRef<'_>,
    number: u64,
    priority: u64,
) -> Check
    ensures { result ≡ by_owner (λ p. Ready p (on_good (interrupt_in live.now.interrupts number) (prioritized number priority (interrupt_in live.now.interrupts number)))) (of_interrupt pes tables.now.sizes.interrupts live.now.interrupts number) }
{
    let count = tables.sizes.interrupts;
    firmware::prioritize(pes, count, live.interrupts, number, priority)
}

// A request that is well formed; `pes` is N.
// Kept: for speed, `fenced` is asked in the arms of the kinds that the fence stops. Asked before the `match`, it costs every request a second look for its kind.
#[inline(always)]
fn ask(
    fenced: bool,
    pes: u16,
    tables: &Tables<'_>,
    live: &LiveRef<'_>,
    request: Request,
) -> Result<Check, Reason>
    requires { (formed request ≡ true) × (pes ≡ tables.now.sizes.pes) }
    ensures { settled result ≡ past_fence fenced request (asked tables.now.sizes tables.now.installed tables.now.requesters tables.now.entries tables.now.windows tables.now.segments live.now request (owner_in tables.now.sizes tables.now.requesters tables.now.windows tables.now.segments live.now.interrupts request)) }
{
    match request {
        Request::Dma(dma) => {
            if fenced {
                return Err(Reason::Fenced);
            }
            by_requester(pes, tables, live, dma)
        }
        Request::Load { address, width } => {
            let value = mmio::ones(width);
            if fenced {
                let reason = Reason::Fenced;
                return Ok(Check::Kept(Answer::Ones { reason, value }));
            }
            let reason = Reason::MmioStopped;
            Ok(access(pes, tables, live, address, Answer::Ones { reason, value }))
        }
        Request::Store { address, width: _ } => {
            if fenced {
                let reason = Reason::Fenced;
                return Ok(Check::Kept(Answer::Drop { reason }));
            }
            let reason = Reason::MmioStopped;
            Ok(access(pes, tables, live, address, Answer::Drop { reason }))
        }
        Request::Error { requester } => {
            if fenced {
                return Err(Reason::Fenced);
            }
            error_message(pes, tables, requester)
        }
        Request::Clear { pe, part } => Ok(firmware::clear(pes, pe, part)),
        Request::End { interrupt } => Ok(end(pes, tables, live, interrupt)),
        Request::Priority {
            interrupt,
            priority,
        } => Ok(prioritize(pes, tables, live, interrupt, priority)),
        Request::Fatal { requester } => fatal_message(pes, tables, requester),
        Request::FenceClear => Ok(Check::Fences(false)),
        Request::Unnamed => Err(Reason::BadRequest),
    }
}

#[inline(always)]
fn is_fenced(tables: &Tables<'_>, live: &LiveRef<'_>) -> bool
    ensures { result ≡ fenced (at live.now.state (fence_word tables.now.sizes.pes)) }
{
    fence::is_fenced(fence::fence_word(live.state, tables.sizes.pes))
}

// Reason 1 by the lengths, then 2, then the rest.
#[inline(always)]
fn pass_checks(
    tables: &Tables<'_>,
    lengths: Lengths,
    live: &LiveRef<'_>,
    request: Request,
) -> Result<Check, Reason>
    ensures { settled result ≡ checked tables.now.sizes tables.now.installed tables.now.requesters tables.now.entries tables.now.windows tables.now.segments live.now (sized tables.now.sizes lengths) request }
{
    let pes = tables.pes_by_lengths(lengths)?;
    if !forms::is_formed(request) {
        return Err(Reason::BadRequest);
    }
    ask(is_fenced(tables, live), pes, tables, live, request)
}

/// All checks before the walk, of tables whose lengths are taken to be `lengths`, in their own words. No memory is lent.
#[inline(always)]
pub fn check_by_lengths(
    tables: &Tables<'_>,
    lengths: Lengths,
    live: &LiveRef<'_>,
    request: Request,
) -> Check
    ensures { result ≡ checked tables.now.sizes tables.now.installed tables.now.requesters tables.now.entries tables.now.windows tables.now.segments live.now (sized tables.now.sizes lengths) request }
{
    outcomes::settled(pass_checks(tables, lengths, live, request))
}

/// All checks before the walk. No memory is lent: `memory` is its length, in words of 8 bytes.
#[inline(always)]
pub fn check(tables: &Tables<'_>, memory: usize, live: &LiveRef<'_>, request: Request) -> Check
    ensures { result ≡ checked_on tables.now memory live.now request }
{
    check_by_lengths(tables, tables.lengths(memory, live), live, request)
}

/// What is left after the checks: the walk, the only reader of memory. `installed` is the installed size in bytes.
#[inline(always)]
#[tactic(auto, unfolding(profile::specs::Step::finish))]
pub fn finish(installed: u64, memory: &[u64], check: Check) -> Outcome
    ensures { result ≡ finish installed memory.now check }
{
    match check {
        Check::Kept(answer) => Outcome {
            answer,
            effect: Effect::Keep,
        },
        Check::Ready(_, outcome) => outcome,
        Check::Walk(pe, entry, dma) => dma::finish_walk(installed, memory, pe, entry, dma),
        Check::Fences(bit) => outcomes::done(Effect::Fence { bit }),
    }
}

/// The answer to a request and its effect, whatever the lengths of the tables.
#[inline(always)]
pub fn decide(tables: &Tables<'_>, memory: &[u64], live: &LiveRef<'_>, request: Request) -> Outcome
    ensures { result ≡ decided tables.now memory.now live.now request }
{
    let checked = check(tables, memory.len(), live, request);
    finish(tables.installed, memory, checked)
}
