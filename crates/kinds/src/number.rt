// A byte address, a page number and a PE number: three kinds of value. The first two come from each other by a page size.

/// An address that counts bytes: on the PCI side or in system memory.
#[derive(Clone, Copy, Debug, PartialEq, Eq)]
pub struct ByteAddress(pub u64);

/// The address that stands where no word of memory is named.
// Kept: 0 and not an Option, as the definition `fault` and the words of an answer have it.
pub const NO_WORD: ByteAddress = ByteAddress(0);

/// An address that counts pages of one size.
#[derive(Clone, Copy, Debug, PartialEq, Eq)]
pub struct PageNumber(pub u64);

/// The number of a partitionable endpoint.
#[derive(Clone, Copy, Debug, PartialEq, Eq)]
pub struct PeNumber(pub u16);

/// No PE has this number.
// Kept: a number and not an Option, as the definition `pe_at` and the words of the tables have it.
pub const NO_PE: u64 = 0x1_0000;

/// The four page sizes: 4 KiB, 64 KiB, 16 MiB and 256 MiB.
#[derive(Clone, Copy, Debug, PartialEq, Eq)]
pub enum PageSize {
    K4,
    K64,
    M16,
    M256,
}

// The page code of a translation entry: pages of code c have 2^(c + 11) bytes.
impl TryFrom<u64> for PageSize {
    type Error = Unnamed;

    ghost use Rattle.std.specs.Prelude.{◌≡◌};
    ghost use Rattle.kinds.specs.Codes.{size_of};

    ghost try_from_gives = { λ code result. result ≡ size_of code };

    #[inline(always)]
    fn try_from(code: u64) -> Result<PageSize, Unnamed> {
        match code {
            1 => Ok(PageSize::K4),
            5 => Ok(PageSize::K64),
            13 => Ok(PageSize::M16),
            17 => Ok(PageSize::M256),
            _ => Err(Unnamed),
        }
    }
}

/// A number that stands for none of the values of a type.
#[derive(Clone, Copy, Debug, PartialEq, Eq)]
pub struct Unnamed;
