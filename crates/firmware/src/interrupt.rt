// What firmware asks of an interrupt: its end, and a new priority.
ghost use Rattle.std.specs.Prelude.{◌≡◌};
ghost use Rattle.kinds.specs.declared.outcome.Effect.TheVariants as effect;
ghost use Rattle.kinds.specs.Outcome.{done};
ghost use Rattle.profile.specs.Firmware.{on_good, ends, prioritized};

use kinds::answer::{Answer, Reason};
use kinds::outcome::{Effect, Outcome};
use kinds::record::Interrupt;
use msi::arrive;
use msi::interrupts::{P, Q, in_range};
use outcomes;
use profile::limits::HOLDING;

// Firmware wrote priority and state, and nothing is presented.
fn written(number: u64, priority: u64, bits: u64) -> Outcome
    ensures { result ≡ done (effect.Interrupt number priority bits) }
{
    outcomes::done(Effect::Interrupt {
        number,
        priority,
        bits,
    })
}

// The end of an interrupt whose words are in their ranges: what was held is presented again, unless the priority holds it.
#[tactic(auto, unfolding(profile::specs::Firmware::ends))]
fn ended(number: u64, interrupt: Interrupt) -> Outcome
    ensures { result ≡ ends number interrupt }
{
    let Interrupt {
        server,
        priority,
        bits,
        ..
    } = interrupt;
    if bits < P {
        outcomes::done(Effect::Keep)
    } else if bits == P {
        written(number, priority, 0)
    } else if priority == HOLDING {
        written(number, priority, Q)
    } else {
        Outcome {
            answer: Answer::Msi {
                number,
                server,
                priority,
            },
            effect: Effect::Interrupt {
                number,
                priority,
                bits: P,
            },
        }
    }
}

// The end of an interrupt whose number and PE are good.
// Kept: `end_interrupt` and `set_priority` apart. Each is one test around its own call; a closure for that call is no plainer.
pub(crate) fn end_interrupt(number: u64, interrupt: Interrupt) -> Outcome
    ensures { result ≡ on_good interrupt (ends number interrupt) }
{
    if in_range(interrupt) {
        ended(number, interrupt)
    } else {
        outcomes::refused(Reason::BadFirmware)
    }
}

// A new priority of an interrupt whose words are in their ranges. It is written first: an MSI that the old one held arrives under it.
#[tactic(auto, unfolding(profile::specs::Firmware::prioritized))]
fn prioritized(number: u64, next: u64, interrupt: Interrupt) -> Outcome
    ensures { result ≡ prioritized number next interrupt }
{
    let bits = interrupt.bits;
    if interrupt.priority == HOLDING && next != HOLDING && bits % 2 == Q {
        let cleared = Interrupt {
            priority: next,
            bits: bits / 2 * 2,
            ..interrupt
        };
        arrive(number, cleared)
    } else {
        written(number, next, bits)
    }
}

// A new priority of an interrupt whose number and PE are good.
pub(crate) fn set_priority(number: u64, priority: u64, interrupt: Interrupt) -> Outcome
    ensures { result ≡ on_good interrupt (prioritized number priority interrupt) }
{
    if in_range(interrupt) {
        prioritized(number, priority, interrupt)
    } else {
        outcomes::refused(Reason::BadFirmware)
    }
}
