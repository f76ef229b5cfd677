// Requests and answers as words: the layout that `bridge::run::run` reads and writes.
ghost use Rattle.std.specs.Prelude.{◌≡◌};
ghost use Rattle.std.specs.Option.{unwrap_or};
ghost use Rattle.kinds.specs.declared.request.Request.TheVariants.{Unnamed};
ghost use Rattle.request_words.specs.Layout.{decoded, decoded_clear, decoded_dma};

use kinds::number::ByteAddress;
use kinds::request::{Direction, DmaRequest, Part, Request};

/// The words of one request in the list of requests.
pub const REQUEST_WORDS: usize = 8;

/// The words of one answer in the list of answers.
pub const ANSWER_WORDS: usize = 8;

// The kinds of request.
const DMA: u64 = 0;

const LOAD: u64 = 1;

const STORE: u64 = 2;

const ERROR: u64 = 3;

const CLEAR: u64 = 4;

const END: u64 = 5;

const PRIORITY: u64 = 6;

const FATAL: u64 = 7;

const FENCE_CLEAR: u64 = 8;

#[inline(always)]
#[tactic(auto, unfolding(request_words::specs::Layout::decoded_dma))]
fn dma(requester: u64, direction: u64, address: u64, length: u64, data: u64) -> Option<Request>
    ensures { unwrap_or result Unnamed ≡ decoded_dma requester direction address length «data» }
{
    Some(Request::Dma(DmaRequest {
        requester,
        direction: Direction::try_from(direction).ok()?,
        address: ByteAddress(address),
        length,
        data: u32::try_from(data).ok()?,
    }))
}

#[inline(always)]
#[tactic(auto, unfolding(request_words::specs::Layout::decoded_clear))]
fn clear(pe: u64, part: u64) -> Option<Request>
    ensures { unwrap_or result Unnamed ≡ decoded_clear pe part }
{
    let part = Part::try_from(part).ok()?;
    Some(Request::Clear { pe, part })
}

/// The request that six words name: its kind, and then its numbers.
// Kept: six words one by one, as the C interface has them (`celltimber_owner`).
#[inline(always)]
#[tactic(auto, unfolding(request_words::specs::Layout::decoded))]
pub fn decode(kind: u64, a: u64, b: u64, c: u64, d: u64, e: u64) -> Request
    ensures { result ≡ decoded kind a b c d e }
{
    let address = ByteAddress(a);
    match kind {
        DMA => dma(a, b, c, d, e).unwrap_or(Request::Unnamed),
        LOAD => Request::Load { address, width: b },
        STORE => Request::Store { address, width: b },
        ERROR => Request::Error { requester: a },
        CLEAR => clear(a, b).unwrap_or(Request::Unnamed),
        END => Request::End { interrupt: a },
        PRIORITY => Request::Priority {
            interrupt: a,
            priority: b,
        },
        FATAL => Request::Fatal { requester: a },
        FENCE_CLEAR => Request::FenceClear,
        _ => Request::Unnamed,
    }
}
