// Interrupts and MSIs: the lent words of an interrupt; an MSI's number, its form, and what happens as it arrives. Defined in crates/profile/specs/Msi.antt.
#![tactic(auto)]

pub mod interrupts;

ghost use Rattle.std.specs.Prelude.{◌≡◌, ◌/◌, ◌%◌, ◌<◌};
ghost use Rattle.std.specs.Int.Bits.{bit_or};
ghost use Rattle.profile.specs.Msi.{number32, number64, msi_formed, presents, arrives, delivered};

use interrupts::{P, Q, in_range};
use kinds::answer::{Answer, Reason};
use kinds::number::{ByteAddress, NO_WORD, PeNumber};
use kinds::outcome::{Effect, Outcome};
use kinds::record::Interrupt;
use kinds::request::Direction;
use outcomes;
use profile::limits::HOLDING;

// The number of an MSI in a window for so many: the low five bits of data ORed with address bits from 4 up.
fn msi_number<const NUMBERS: u64>(address: ByteAddress, data: u32) -> u64
    requires { 0 < NUMBERS }
    ensures { result ≡ bit_or («data» % 32) (address.0 / 16 % NUMBERS) }
{
    u64::from(data % 32) | address.0 / 16 % NUMBERS
}

/// The number of an MSI in the 32-bit window: by address bits 15..4.
#[tactic(auto, unfolding(profile::specs::Msi::number32))]
pub fn msi_number32(address: ByteAddress, data: u32) -> u64
    ensures { result ≡ number32 address «data» }
{
    msi_number::<0x1000>(address, data)
}

/// The number of an MSI in the 64-bit window: by address bits 19..4.
#[tactic(auto, unfolding(profile::specs::Msi::number64))]
pub fn msi_number64(address: ByteAddress, data: u32) -> u64
    ensures { result ≡ number64 address «data» }
{
    msi_number::<0x1_0000>(address, data)
}

/// Whether it is a write of 4 bytes at a multiple of 4; `length` is in bytes.
#[tactic(auto, unfolding(profile::specs::Msi::msi_formed))]
pub fn msi_formed(direction: Direction, address: ByteAddress, length: u64) -> bool
    ensures { result ≡ msi_formed direction address length }
{
    matches!(direction, Direction::Write) && length == 4 && address.0 % 4 == 0
}

// An arriving MSI is presented; else it is held.
#[tactic(auto, unfolding(profile::specs::Msi::presents))]
fn presented(priority: u64, bits: u64) -> bool
    ensures { result ≡ presents priority bits }
{
    priority != HOLDING && bits < P
}

/// The outcome of an MSI that arrives: P is set where it is presented, Q where it is held. The other bit stays.
#[tactic(auto, unfolding(profile::specs::Msi::presents, profile::specs::Msi::announced, profile::specs::Msi::arrived))]
pub fn arrive(number: u64, interrupt: Interrupt) -> Outcome
    ensures { result ≡ arrives number interrupt }
{
    let Interrupt {
        server,
        priority,
        bits,
        ..
    } = interrupt;
    if presented(priority, bits) {
        Outcome {
            answer: Answer::Msi {
                number,
                server,
                priority,
            },
            effect: Effect::Interrupt {
                number,
                priority,
                bits: bits + P,
            },
        }
    } else {
        Outcome {
            answer: Answer::Held { number },
            effect: Effect::Interrupt {
                number,
                priority,
                bits: bits / 2 * 2 + Q,
            },
        }
    }
}

/// An MSI of a PE, with its number and the words of that interrupt. Where the interrupt is not that PE's or a word is out of range, it fails and freezes the PE.
#[tactic(auto, unfolding(profile::specs::Msi::delivered))]
pub fn deliver(pe: PeNumber, address: ByteAddress, number: u64, interrupt: Interrupt) -> Outcome
    ensures { result ≡ delivered pe address number interrupt }
{
    if interrupt.pe == u64::from(pe.0) && in_range(interrupt) {
        arrive(number, interrupt)
    } else {
        outcomes::failed(Reason::MsiRefused, address, 0, NO_WORD)
    }
}
