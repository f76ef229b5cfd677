// Firmware requests: what a clear, an end and a priority are answered and do. Defined in crates/profile/specs/Firmware.antt.
#![tactic(auto)]

pub mod interrupt;

ghost use Rattle.std.specs.Prelude.{◌≡◌};
ghost use Rattle.kinds.specs.declared.outcome.Check.TheVariants.{Ready};
ghost use Rattle.kinds.specs.Outcome.{done};
ghost use Rattle.kinds.specs.declared.answer.Reason.TheVariants.{BadFirmware};
ghost use Rattle.kinds.specs.declared.outcome.Effect.TheVariants.{Release};
ghost use Rattle.owners.specs.ByOwner.{by_owner};
ghost use Rattle.profile.specs.Firmware.{on_good, ends, prioritized};
ghost use Rattle.profile.specs.Msi.{interrupt_in};
ghost use Rattle.profile.specs.Owner.{of_interrupt};
ghost use Rattle.profile.specs.Tables.{named};

use kinds::answer::Reason;
use kinds::outcome::{Check, Effect};
use kinds::request::Part;
use msi::interrupts;
use outcomes;
use owners;

/// A clear of a stop bit or of the error record of a PE; `pes` is N. Refused with `BadFirmware` where `pe` is not below N.
#[tactic(auto, unfolding(owners::specs::ByOwner::by_owner))]
pub fn clear(pes: u16, pe: u64, part: Part) -> Check
    ensures { result ≡ by_owner (λ p. Ready p (done (Release part))) (named BadFirmware pes pe) }
{
    let owner = owners::named_pe(Reason::BadFirmware, pes, pe);
    owner.map_or_else(outcomes::refuse, |pe| {
        Check::Ready(pe, outcomes::done(Effect::Release { part }))
    })
}

/// The end of an interrupt; `pes` is N, `count` M. Refused with `BadFirmware` where it is no PE's.
// Kept: `end` and `prioritize` apart. One function over a closure would say all but the middle line twice: in its contract, and in theirs.
#[tactic(auto, unfolding(owners::specs::ByOwner::by_owner))]
pub fn end(pes: u16, count: u64, interrupts: &[u64], number: u64) -> Check
    ensures { result ≡ by_owner (λ p. Ready p (on_good (interrupt_in interrupts.now number) (ends number (interrupt_in interrupts.now number)))) (of_interrupt pes count interrupts.now number) }
{
    let owner = owners::of_interrupt(pes, count, interrupts, number);
    owner.map_or_else(outcomes::refuse, |pe| {
        let record = interrupts::interrupt_at(interrupts, number);
        Check::Ready(pe, interrupt::end_interrupt(number, record))
    })
}

/// A new priority of an interrupt; `pes` is N, `count` M. Refused with `BadFirmware` where it is no PE's.
#[tactic(auto, unfolding(owners::specs::ByOwner::by_owner))]
pub fn prioritize(pes: u16, count: u64, interrupts: &[u64], number: u64, priority: u64) -> Check
    ensures { result ≡ by_owner (λ p. Ready p (on_good (interrupt_in interrupts.now number) (prioritized number priority (interrupt_in interrupts.now number)))) (of_interrupt pes count interrupts.now number) }
{
    let owner = owners::of_interrupt(pes, count, interrupts, number);
    owner.map_or_else(outcomes::refuse, |pe| {
        let record = interrupts::interrupt_at(interrupts, number);
        Check::Ready(pe, interrupt::set_priority(number, priority, record))
    })
}
