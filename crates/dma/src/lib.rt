// A DMA of a PE: its checks before memory is read, and its outcome by the walk of its page. Defined in crates/profile/specs/Step.antt.
#![tactic(auto)]

ghost use Rattle.std.specs.Prelude.{◌≡◌};
ghost use Rattle.kinds.specs.declared.outcome.Check.TheVariants.{Ready, Walk};
ghost use Rattle.kinds.specs.Words.{at};
ghost use Rattle.profile.specs.Entry.{class_of};
ghost use Rattle.profile.specs.Freeze.{stop_word};
ghost use Rattle.profile.specs.Msi.{msi, msi_formed};
ghost use Rattle.profile.specs.Step.{installed_to, last_test, outcome_of, reached, by_entry, served, dma_asked, finish};

use dma_entry::addresses;
use dma_entry::ask::{self, Way};
use dma_walk::translate;
use endpoints;
use kinds::answer::Reason;
use kinds::lookup::Fault;
use kinds::number::{ByteAddress, NO_WORD, PeNumber};
use kinds::outcome::{Check, Outcome};
use kinds::record::TranslationEntry;
use kinds::request::{AddressClass, DmaRequest};
use msi::{self, interrupts};
use outcomes;
use tables::lent::{LiveRef, Tables};

// Whether the last of the bytes from a system address is below the installed size. No sum is made that could pass 2^64 - 1, and the address, which is
// known last, is compared once.
#[inline(always)]
#[tactic(auto, using(crate::proofs::DmaLaws::none_installed, crate::proofs::DmaLaws::room_installed))]
fn is_installed(installed: u64, address: ByteAddress, length: u64) -> bool
    ensures { result ≡ installed_to installed address length }
{
    let reach = length.saturating_sub(1);
    reach < installed && address.0 < installed - reach
}

// The last test of a DMA, by pages or by a bypass.
#[inline(always)]
#[tactic(auto, unfolding(profile::specs::Step::last_test))]
fn last_test(
    installed: u64,
    length: u64,
    translated: Result<ByteAddress, Fault>,
) -> Result<ByteAddress, Fault>
    ensures { result ≡ last_test installed length translated }
{
    let to = translated?;
    if is_installed(installed, to, length) {
        Ok(to)
    } else {
        Err(Fault {
            reason: Reason::AboveInstalled,
            word: NO_WORD,
        })
    }
}

// The outcome by what a translation gave, with the count of words that it read.
#[inline(always)]
#[tactic(auto, unfolding(profile::specs::Step::outcome_of))]
fn outcome_of(
    pe: PeNumber,
    address: ByteAddress,
    translated: Result<ByteAddress, Fault>,
    words: u64,
) -> Outcome
    ensures { result ≡ outcome_of pe address translated words }
{
    match translated {
        Ok(to) => outcomes::passed(pe, to, words),
        Err(Fault { reason, word }) => outcomes::failed(reason, address, words, word),
    }
}

/// The same, after the last test.
// Kept: the parameters of the definition's `reached`, one by one; `unwalked` hands them on.
#[inline(always)]
pub fn reached(
    installed: u64,
    pe: PeNumber,
    dma: DmaRequest,
    translated: Result<ByteAddress, Fault>,
    words: u64,
) -> Outcome
    ensures { result ≡ reached installed pe dma translated words }
{
    let tested = last_test(installed, dma.length, translated);
    outcome_of(pe, dma.address, tested, words)
}

// The outcome of a DMA for which no word of memory is read.
#[inline(always)]
fn unwalked(
    installed: u64,
    pe: PeNumber,
    dma: DmaRequest,
    translated: Result<ByteAddress, Fault>,
) -> Check
    ensures { result ≡ Ready pe (reached installed pe dma translated 0) }
{
    Check::Ready(pe, reached(installed, pe, dma, translated, 0))
}

// By the entry that the address picks.
#[inline(always)]
fn by_entry(installed: u64, entry: TranslationEntry, pe: PeNumber, dma: DmaRequest) -> Check
    ensures { result ≡ by_entry installed entry pe dma }
{
    let offset = addresses::offset_of(dma.address);
    match ask::ask(entry, offset) {
        Ok(Way::Walk(_)) => Check::Walk(pe, entry, dma),
        Ok(Way::Bypass) => unwalked(installed, pe, dma, Ok(offset)),
        Err(reason) => unwalked(
            installed,
            pe,
            dma,
            Err(Fault {
                reason,
                word: NO_WORD,
            }),
        ),
    }
}

// An MSI of a PE, with its number; `count` is M.
#[inline(always)]
#[tactic(auto, unfolding(profile::specs::Msi::msi))]
fn deliver(count: u64, interrupts: &[u64], pe: PeNumber, dma: DmaRequest, number: u64) -> Outcome
    ensures { result ≡ msi count interrupts.now pe dma.address number (msi_formed dma.direction dma.address dma.length) }
{
    if msi::msi_formed(dma.direction, dma.address, dma.length) && number < count {
        let record = interrupts::interrupt_at(interrupts, number);
        msi::deliver(pe, dma.address, number, record)
    } else {
        outcomes::failed(Reason::MsiRefused, dma.address, 0, NO_WORD)
    }
}

// A DMA of a PE that is not stopped, by the class of its address.
#[inline(always)]
#[tactic(auto, unfolding(profile::specs::Step::served))]
fn by_class(tables: &Tables<'_>, live: &LiveRef<'_>, pe: PeNumber, dma: DmaRequest) -> Check
    ensures { result ≡ served (class_of dma.address) tables.now.sizes.interrupts tables.now.installed tables.now.entries live.now.interrupts pe dma }
{
    let address = dma.address;
    let count = tables.sizes.interrupts;
    match addresses::class_of(address) {
        AddressClass::Dma => {
            let entry = addresses::entry_of(tables.entries, pe, address);
            by_entry(tables.installed, entry, pe, dma)
        }
        // Kept: the two arms of MSI differ in the function of the number alone, as those of the definition's `served` do.
        AddressClass::Msi32 => {
            let number = msi::msi_number32(address, dma.data);
            Check::Ready(pe, deliver(count, live.interrupts, pe, dma, number))
        }
        AddressClass::Msi64 => {
            let number = msi::msi_number64(address, dma.data);
            Check::Ready(pe, deliver(count, live.interrupts, pe, dma, number))
        }
        AddressClass::Unserved => Check::Ready(
            pe,
            outcomes::failed(Reason::AddressClass, address, 0, NO_WORD),
        ),
    }
}

/// A DMA of a PE, as far as no memory is read; one of a stopped PE is refused with `DmaStopped`.
#[inline(always)]
#[tactic(auto, unfolding(profile::specs::Step::dma_asked))]
pub fn check_dma(tables: &Tables<'_>, live: &LiveRef<'_>, pe: PeNumber, dma: DmaRequest) -> Check
    ensures { result ≡ dma_asked tables.now.sizes.interrupts tables.now.installed tables.now.entries live.now.interrupts (at live.now.state (stop_word pe)) pe dma }
{
    let stop = endpoints::stop_word(live.state, pe);
    if endpoints::dma_stopped(stop) {
        return outcomes::refuse(Reason::DmaStopped);
    }
    by_class(tables, live, pe, dma)
}

/// A DMA of a PE by the walk of its page: the only reader of memory. The installed size comes first.
// Kept: PE, entry and DMA as three, as the definition's check of a walk has them (crates/kinds/src/outcome.rt, `Check::Walk`).
#[inline(always)]
#[tactic(auto, unfolding(profile::specs::Step::finish))]
pub fn finish_walk(
    installed: u64,
    memory: &[u64],
    pe: PeNumber,
    entry: TranslationEntry,
    dma: DmaRequest,
) -> Outcome
    ensures { result ≡ finish installed memory.now (Walk pe entry dma) }
{
    let offset = addresses::offset_of(dma.address);
    let translation = translate::translate(memory, entry, dma.direction, offset);
    reached(installed, pe, dma, translation.result, translation.words)
}
