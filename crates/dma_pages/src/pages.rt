// The page that a byte address lies in, and the byte address of a place in a page.
ghost use Rattle.std.specs.Prelude.{◌≡◌, ◌%◌, ◌^◌};
ghost use Rattle.kinds.specs.Number.{page_bits, page_number, byte_address};

use kinds::number::{ByteAddress, PageNumber, PageSize};

// The number of address bits inside a page.
#[inline(always)]
pub(crate) fn page_bits(size: PageSize) -> u64
    ensures { result ≡ page_bits size }
{
    match size {
        PageSize::K4 => 12,
        PageSize::K64 => 16,
        PageSize::M16 => 24,
        PageSize::M256 => 28,
    }
}

/// The page that an address lies in.
#[inline(always)]
pub fn page_number(size: PageSize, address: ByteAddress) -> PageNumber
    ensures { result ≡ page_number size address }
{
    let bits = page_bits(size);
    PageNumber(address.0 >> bits)
}

/// The address in a page that has the offset of `inside` in its own page, cut to 64 bits.
#[inline(always)]
#[tactic(auto, using(crate::proofs::PageLaws::joined_at))]
pub fn byte_address(size: PageSize, page: PageNumber, inside: ByteAddress) -> ByteAddress
    ensures { result.0 ≡ (byte_address size page inside).0 % 2 ^ 64 }
{
    let bits = page_bits(size);
    ByteAddress((page.0 << bits) | (inside.0 & ((1u64 << bits) - 1)))
}
