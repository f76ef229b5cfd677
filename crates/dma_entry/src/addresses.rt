// What an address of a DMA picks: its class, a record of its PE, and the offset.
ghost use Rattle.std.specs.Prelude.{◌≡◌};
ghost use Rattle.profile.specs.Entry.{class_of, half, offset, entry_in};
ghost use Rattle.dma_entry.specs.Class.{low_class};

use kinds::number::{ByteAddress, PeNumber};
use kinds::record::TranslationEntry;
use kinds::request::AddressClass;
use profile::limits;
use tables::words::word;

// The words of a PE's two records.
const ENTRY_WORDS: usize = limits::ENTRY_WORDS as usize;

// The words of one record.
const RECORD_WORDS: usize = limits::RECORD_WORDS as usize;

/// The class of an address, by its top four bits.
#[inline(always)]
#[tactic(auto, unfolding(profile::specs::Entry::class_of, crate::specs::Class::low_class))]
pub fn class_of(address: ByteAddress) -> AddressClass
    ensures { result ≡ class_of address }
{
    match address.0 >> 60 {
        0 => low_class(address),
        1 => AddressClass::Msi64,
        _ => AddressClass::Unserved,
    }
}

// Class 0: the 32-bit MSI window is cut out of it.
#[inline(always)]
#[tactic(auto, unfolding(crate::specs::Class::low_class))]
fn low_class(address: ByteAddress) -> AddressClass
    ensures { result ≡ low_class address }
{
    match address.0 {
        0xFFFF_0000..=0xFFFF_FFFF => AddressClass::Msi32,
        _ => AddressClass::Dma,
    }
}

/// The low 59 bits of an address.
#[inline(always)]
pub fn offset_of(address: ByteAddress) -> ByteAddress
    ensures { result ≡ offset address }
{
    ByteAddress(address.0 & 0x7FF_FFFF_FFFF_FFFF)
}

/// Bit 59 of an address: 0 picks the first record of a PE, 1 the second.
// Kept: a number: it is a word of a slot of the cache, and places in a table are worked out from it.
#[inline(always)]
pub fn half_of(address: ByteAddress) -> u64
    ensures { result ≡ half address }
{
    (address.0 >> 59) % 2
}

/// The record of a PE that an address picks. A word that the table does not have is 0.
#[inline(always)]
pub fn entry_of(entries: &[u64], pe: PeNumber, address: ByteAddress) -> TranslationEntry
    ensures { result ≡ entry_in entries.now pe (half address) }
{
    let first = usize::from(pe.0) * ENTRY_WORDS + half_of(address) as usize * RECORD_WORDS;
    TranslationEntry {
        base: word(entries, first),
        levels: word(entries, first + 1),
        table: word(entries, first + 2),
        page: word(entries, first + 3),
    }
}
