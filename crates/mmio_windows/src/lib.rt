// Load and store routing: the first open window that covers an address. Defined in crates/profile/specs/Windows.antt.
#![tactic(auto)]

mod open_windows;

ghost use Rattle.std.specs.Prelude.{◌≡◌, ◌+◌, ◌-◌, ◌<◌, ◌≤◌, ◌==◌, ◌||◌, true, None};
ghost use Rattle.kinds.specs.Words.{pe_at};
ghost use Rattle.mmio_windows.specs.Size.{WindowSize};
ghost use Rattle.profile.specs.Windows.{m64_count, segment_of, m64_pe, window, m64, m64_from, route};
ghost use Rattle.mmio_windows.specs.Takes.{m32_takes, m64_takes};

use kinds::lookup::Hit;
use kinds::number::ByteAddress;
use kinds::record::Window;
use open_windows::{is_placed, m32_takes};
use profile::limits;
use tables::words;

// A window has 2^8 segments.
const SEGMENT_BITS: u32 = 8;

// The sizes of M64 windows, as exponents of two: 256 MiB to 2^50.
const M64_LEAST: u32 = 28;

const M64_MOST: u32 = 50;

// The M64 windows: their number, and their places in the table.
const M64_COUNT: usize = limits::M64_COUNT as usize;

const M32_WORDS: usize = limits::M32_WORDS as usize;

const M64_WORDS: usize = limits::M64_WORDS as usize;

// The segment of an address that its window covers.
#[tactic(auto, using(crate::proofs::Powers::segment_is))]
fn segment(base: u64, size: u64, address: ByteAddress) -> u64
    requires { (base ≤ address.0) × WindowSize size }
    ensures { result ≡ segment_of base size address }
{
    (address.0 - base) >> (size.trailing_zeros() - SEGMENT_BITS)
}

// The PE of the segment, and the offset moved to the PCI base.
// Kept: numbers and not a struct, here and in open_windows: the definitions `placed` and `m32_takes` take them so, and the words of M64 are read one after another, the mode first.
#[tactic(auto, using(crate::proofs::RouteLaws::m32_from, crate::proofs::RouteLaws::m32_sized, crate::proofs::RouteLaws::m32_moved))]
fn m32_hit(segments: &[u16], base: u64, size: u64, pci: u64, address: ByteAddress) -> Hit
    requires { m32_takes base size pci address ≡ true }
    ensures { result ≡ record { pe = pe_at segments.now (segment_of base size address); pci = record { 0 = address.0 - base + pci } } }
{
    let index = segment(base, size, address) as usize;
    Hit {
        pe: words::short_pe_word(segments, index),
        pci: ByteAddress(address.0 - base + pci),
    }
}

// M64 window k of the table.
// Kept: `k < m64_count` in three contracts; a type for k would have the same bound in its invariant, and be made at the one call of `m64_hit`.
fn m64_at(windows: &[u64], k: usize) -> Window
    requires { k < m64_count }
    ensures { result ≡ window windows.now k }
{
    let row = k * M64_WORDS;
    Window {
        base: words::word(windows, M32_WORDS + row),
        size: words::word(windows, M32_WORDS + (row + 1)),
        mode: words::word(windows, M32_WORDS + (row + 2)),
        pe: words::pe_word(windows, M32_WORDS + (row + 3)),
    }
}

// A window of another mode is closed.
// Kept: modes as numbers, the table words of the definition, where any other number closes a window.
fn is_on(mode: u64) -> bool
    ensures { result ≡ (mode == 1 || mode == 2) }
{
    matches!(mode, 1 | 2)
}

// M64 window k is open and covers the address. The mode is asked first: of a window that is off, no other word is read.
#[tactic(auto, using(crate::proofs::OpenLaws::m64_off, crate::proofs::OpenLaws::m64_on))]
fn m64_takes(windows: &[u64], k: usize, address: ByteAddress) -> bool
    requires { k < m64_count }
    ensures { result ≡ m64_takes (window windows.now k) address }
{
    let row = k * M64_WORDS;
    let mode = words::word(windows, M32_WORDS + (row + 2));
    is_on(mode)
        && is_placed::<M64_LEAST, M64_MOST>(
            words::word(windows, M32_WORDS + row),
            words::word(windows, M32_WORDS + (row + 1)),
            address,
        )
}

#[tactic(auto, using(crate::proofs::RouteLaws::m64_begins, crate::proofs::RouteLaws::m64_sized), unfolding(profile::specs::Windows::m64_pe))]
fn m64_pe(window: Window, address: ByteAddress) -> u64
    requires { m64_takes window address ≡ true }
    ensures { result ≡ m64_pe window address }
{
    if window.mode == 1 {
        window.pe
    } else {
        segment(window.base, window.size, address)
    }
}

// What M64 window k gives, if it takes the address: its PCI address is the same one.
#[tactic(auto, using(crate::proofs::RouteLaws::m64_away, crate::proofs::RouteLaws::m64_there, crate::proofs::RouteLaws::m64_taken))]
fn m64_hit(windows: &[u64], k: usize, address: ByteAddress) -> Option<Hit>
    requires { k < m64_count }
    ensures { result ≡ m64 (window windows.now k) address None }
{
    if !m64_takes(windows, k, address) {
        return None;
    }
    Some(Hit {
        pe: m64_pe(m64_at(windows, k), address),
        pci: address,
    })
}

// The first of the M64 windows that takes the address.
// Kept: by `find_map` the proof did not close.
#[tactic(auto, using(crate::proofs::RouteLaws::from_hit, crate::proofs::RouteLaws::from_next, crate::proofs::RouteLaws::from_end))]
fn m64_route(windows: &[u64], address: ByteAddress) -> Option<Hit>
    ensures { result ≡ m64_from windows.now m64_count 0 address }
{
    for k in 0..M64_COUNT {
        if let Some(hit) = m64_hit(windows, k, address) {
            return Some(hit);
        }
    }
    None
}

/// Where a load or store goes: the PE and the PCI address of the first open window that covers the address, or None. M32 is asked first.
#[tactic(auto, using(crate::proofs::RouteLaws::route_m32, crate::proofs::RouteLaws::route_m64))]
pub fn route(windows: &[u64], segments: &[u16], address: ByteAddress) -> Option<Hit>
    ensures { result ≡ route windows.now segments.now address }
{
    let base = words::word(windows, 0);
    let size = words::word(windows, 1);
    let pci = words::word(windows, 2);
    if m32_takes(base, size, pci, address) {
        Some(m32_hit(segments, base, size, pci, address))
    } else {
        m64_route(windows, address)
    }
}
