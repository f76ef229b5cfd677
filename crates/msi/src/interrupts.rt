// The interrupts: the lent table of their words, and the ranges that the words have to be in.
ghost use Rattle.std.specs.Prelude.{◌≡◌};
ghost use Rattle.profile.specs.Msi.{interrupt_in, stored, ranged};

use kinds::number::{NO_PE, PeNumber};
use kinds::record::Interrupt;
use profile::limits::{self, HOLDING};
use tables::words;

// The words of an interrupt.
const INTERRUPT_WORDS: usize = limits::INTERRUPT_WORDS as usize;

// A server is below this.
const SERVERS: u64 = 0x100_0000;

/// Bit P of a state, 2P + Q: the interrupt is presented.
pub const P: u64 = 2;

/// Bit Q of a state: an MSI is held.
pub const Q: u64 = 1;

/// The words of an interrupt; where the table has none it is no PE's.
// Kept: no PE is the number that the definition (interrupt_in, pe_at) gives it; an Option would leave each contract with that number again.
pub fn interrupt_at(interrupts: &[u64], number: u64) -> Interrupt
    ensures { result ≡ interrupt_in interrupts.now number }
{
    let index = number as usize;
    if index < interrupts.len() {
        let first = index * INTERRUPT_WORDS;
        Interrupt {
            pe: words::pe_word(interrupts, first),
            server: words::word(interrupts, first + 1),
            priority: words::word(interrupts, first + 2),
            bits: words::word(interrupts, first + 3),
        }
    } else {
        Interrupt {
            pe: NO_PE,
            server: 0,
            priority: 0,
            bits: 0,
        }
    }
}

/// Whether server (below 2^24), priority (to 255) and state (to 3) are in their ranges.
#[tactic(auto, unfolding(profile::specs::Msi::ranged))]
pub fn in_range(interrupt: Interrupt) -> bool
    ensures { result ≡ ranged interrupt }
{
    interrupt.server < SERVERS && interrupt.priority <= HOLDING && interrupt.bits <= P + Q
}

/// Priority and state of an interrupt are written by the PE that it belongs to, and by no other.
pub fn store(interrupts: &mut [u64], pe: PeNumber, number: u64, priority: u64, bits: u64)
    ensures { interrupts.new ≡ stored pe number priority bits interrupts.old }
{
    let index = number as usize;
    if index < interrupts.len() {
        let first = index * INTERRUPT_WORDS;
        if words::pe_word(interrupts, first) == u64::from(pe.0) {
            words::put(interrupts, first + 2, priority);
            words::put(interrupts, first + 3, bits);
        }
    }
}
