// Whether a window is open and covers an address: its size, its base, and the PCI base of M32. M64 windows are asked for their mode before.
ghost use Rattle.std.specs.Prelude.{◌≡◌, ◌-◌, ◌%◌, ◌<◌, ◌≤◌, ◌==◌};
ghost use Rattle.profile.specs.Windows.{is_power};
ghost use Rattle.mmio_windows.specs.Size.{WindowSize};
ghost use Rattle.mmio_windows.specs.Takes.{placed, m32_takes};

use kinds::number::ByteAddress;

// The sizes of M32, as exponents of two: 1 MiB to 4 GiB.
const M32_LEAST: u32 = 20;

const M32_MOST: u32 = 32;

// The PCI side of M32 ends here at the latest.
const PCI_END: u64 = 0x1_0000_0000;

// The size is a power of two, from 2^LEAST to 2^MOST.
#[tactic(auto, using(crate::proofs::Powers::power_is, crate::proofs::Powers::power_off))]
fn is_power<const LEAST: u32, const MOST: u32>(size: u64) -> bool
    requires { (LEAST ≤ MOST) × (MOST < 64) }
    ensures { result ≡ is_power LEAST (MOST - LEAST) size }
{
    let bits = size.trailing_zeros();
    (LEAST..=MOST).contains(&bits) && size == 1 << bits
}

// A multiple of a window's size.
#[tactic(auto, using(crate::proofs::Powers::multiple_is))]
fn is_multiple(value: u64, size: u64) -> bool
    requires { WindowSize size }
    ensures { result ≡ value % size == 0 }
{
    value & (size - 1) == 0
}

// The size is a power of two from 2^LEAST to 2^MOST, the base is a multiple of it, and the window covers the address: the base is the address without
// the bits below the size. That is asked first, since it rules most windows out; of a size that is no power of two it says nothing.
#[tactic(auto, using(crate::proofs::OpenLaws::placed_there, crate::proofs::OpenLaws::placed_away))]
pub(crate) fn is_placed<const LEAST: u32, const MOST: u32>(
    base: u64,
    size: u64,
    address: ByteAddress,
) -> bool
    requires { (LEAST ≤ MOST) × (MOST < 64) }
    ensures { result ≡ placed LEAST MOST base size address }
{
    let place = address.0;
    place - (place & size.wrapping_sub(1)) == base && is_power::<LEAST, MOST>(size)
}

// M32 is open and covers the address: the PCI base is a multiple of the size too, and the PCI side ends at or below 2^32.
#[tactic(auto, using(crate::proofs::OpenLaws::m32_size, crate::proofs::OpenLaws::m32_fits, crate::proofs::OpenLaws::m32_end, crate::proofs::OpenLaws::m32_away, crate::proofs::OpenLaws::m32_no_pci))]
pub(crate) fn m32_takes(base: u64, size: u64, pci: u64, address: ByteAddress) -> bool
    ensures { result ≡ m32_takes base size pci address }
{
    is_placed::<M32_LEAST, M32_MOST>(base, size, address)
        && is_multiple(pci, size)
        && pci <= PCI_END - size
}
