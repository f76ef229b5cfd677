// Whom a request belongs to, on tables of any length. N has 16 bits, so that a number below it is a PE's. Defined in crates/profile/specs/Owner.antt.
#![tactic(auto)]

ghost use Rattle.std.specs.Prelude.{◌≡◌};
ghost use Rattle.profile.specs.Tables.{named};
ghost use Rattle.profile.specs.Owner.{of_requester, of_interrupt, of_hit, owner_in};

use kinds::answer::Reason;
use kinds::lookup::Hit;
use kinds::number::PeNumber;
use kinds::request::Request;
use mmio_windows;
use msi::interrupts;
use tables::words;

/// The PE with this number. The error is the reason given, where it is not below N.
#[inline(always)]
#[tactic(auto, unfolding(profile::specs::Tables::named))]
pub fn named_pe(reason: Reason, pes: u16, number: u64) -> Result<PeNumber, Reason>
    ensures { result ≡ named reason pes number }
{
    if number < u64::from(pes) {
        Ok(PeNumber(number as u16))
    } else {
        Err(reason)
    }
}

/// The PE of a requester; `count` is R. The error is `UnknownRequester`, where the requester or its PE is not below R or N.
#[inline(always)]
pub fn of_requester(
    pes: u16,
    count: u64,
    requesters: &[u16],
    requester: u64,
) -> Result<PeNumber, Reason>
    ensures { result ≡ of_requester pes count requesters.now requester }
{
    if requester >= count {
        return Err(Reason::UnknownRequester);
    }
    let pe = words::short_pe_word(requesters, requester as usize);
    named_pe(Reason::UnknownRequester, pes, pe)
}

/// The PE of an interrupt; `count` is M. The error is `BadFirmware`, where the interrupt or its PE is not below M or N.
#[inline(always)]
pub fn of_interrupt(
    pes: u16,
    count: u64,
    interrupts: &[u64],
    number: u64,
) -> Result<PeNumber, Reason>
    ensures { result ≡ of_interrupt pes count interrupts.now number }
{
    if number >= count {
        return Err(Reason::BadFirmware);
    }
    let interrupt = interrupts::interrupt_at(interrupts, number);
    named_pe(Reason::BadFirmware, pes, interrupt.pe)
}

/// The PE of the window that an address hits. The error is `NoWindow`, where it hits none or its PE is not below N.
#[inline(always)]
pub fn of_hit(pes: u16, hit: Option<Hit>) -> Result<PeNumber, Reason>
    ensures { result ≡ of_hit pes hit }
{
    let hit = hit.ok_or(Reason::NoWindow)?;
    named_pe(Reason::NoWindow, pes, hit.pe)
}

/// The PE that a request belongs to. The error is the reason that a request is refused for that belongs to no PE.
// Kept: the tables one by one, as the C interface lends them to its caller, which has no others.
#[inline(always)]
#[tactic(auto, unfolding(profile::specs::Owner::owner_in))]
pub fn owner_of(
    pes: u16,
    interrupt_count: u64,
    requester_count: u64,
    requesters: &[u16],
    interrupts: &[u64],
    windows: &[u64],
    segments: &[u16],
    request: Request,
) -> Result<PeNumber, Reason>
    ensures { result ≡ owner_in (record { pes = pes; interrupts = interrupt_count; requesters = requester_count }) requesters.now windows.now segments.now interrupts.now request }
{
    match request {
        Request::Dma(dma) => of_requester(pes, requester_count, requesters, dma.requester),
        Request::Load { address, .. } | Request::Store { address, .. } => of_hit(
            pes,
            mmio_windows::route(windows, segments, address),
        ),
        Request::Error { requester } | Request::Fatal { requester } => of_requester(
            pes,
            requester_count,
            requesters,
            requester,
        ),
        Request::Clear { pe, .. } => named_pe(Reason::BadFirmware, pes, pe),
        Request::End { interrupt } | Request::Priority { interrupt, .. } => of_interrupt(
            pes,
            interrupt_count,
            interrupts,
            interrupt,
        ),
        Request::FenceClear => Err(Reason::BadFirmware),
        Request::Unnamed => Err(Reason::BadRequest),
    }
}
