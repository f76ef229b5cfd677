// Reason 2: whether a request is well formed.
ghost use Rattle.std.specs.Prelude.{◌≡◌};
ghost use Rattle.profile.specs.Step.{access_formed, dma_formed, formed};

use kinds::number::ByteAddress;
use kinds::request::Request;
use profile::limits::HOLDING;

// A DMA has at most this many bytes, all in one block of as many.
const BLOCK: u64 = 4096;

// 1 to 4,096 bytes, all in one block of 4,096.
#[inline(always)]
#[tactic(auto, unfolding(profile::specs::Step::dma_formed))]
fn dma_formed(address: ByteAddress, length: u64) -> bool
    ensures { result ≡ dma_formed address length }
{
    (1..=BLOCK).contains(&length) && address.0 % BLOCK + length <= BLOCK
}

// Width 1, 2, 4 or 8, and the address a multiple of it.
#[inline(always)]
#[tactic(auto, unfolding(profile::specs::Step::access_formed))]
fn access_formed(address: ByteAddress, width: u64) -> bool
    ensures { result ≡ access_formed address width }
{
    match width {
        1 => true,
        2 => address.0 % 2 == 0,
        4 => address.0 % 4 == 0,
        8 => address.0 % 8 == 0,
        _ => false,
    }
}

// Whether a request is well formed, as far as it says itself.
#[inline(always)]
#[tactic(auto, unfolding(profile::specs::Step::formed))]
pub(crate) fn is_formed(request: Request) -> bool
    ensures { result ≡ formed request }
{
    match request {
        Request::Dma(dma) => dma_formed(dma.address, dma.length),
        Request::Load { address, width } | Request::Store { address, width } => {
            access_formed(address, width)
        }
        Request::Priority {
            interrupt: _,
            priority,
        } => priority <= HOLDING,
        Request::Error { .. }
        | Request::Clear { .. }
        | Request::End { .. }
        | Request::Fatal { .. }
        | Request::FenceClear => true,
        Request::Unnamed => false,
    }
}
