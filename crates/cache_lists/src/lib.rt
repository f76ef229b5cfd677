// Operations read from lists of words. Defined in crates/cache_words/specs/Operations.antt.
#![tactic(auto)]

ghost use Rattle.std.specs.Prelude.{◌≡◌, option_map};
ghost use Rattle.std.specs.Option.{unwrap_or};
ghost use Rattle.kinds.specs.declared.request.Operation.TheVariants.{Plain, Invalidate};
ghost use Rattle.kinds.specs.declared.request.Request.TheVariants.{Unnamed};
ghost use Rattle.cache_words.specs.Operations.{decoded_invalidate, decoded_operation, operation_in, of_cache_in};

use kinds::number::ByteAddress;
use kinds::request::{Operation, Request, Scope};
use request_lists::{layout, word_lists};

// The kinds that name no request of the bridge without a cache.
const EDIT: u64 = 9;

const INVALIDATE: u64 = 10;

// The scope that a number and the numbers after it name.
#[inline(always)]
#[tactic(auto, unfolding(cache_words::specs::Operations::decoded_invalidate))]
fn scope(number: u64, pe: u64, address: u64) -> Option<Scope>
    ensures { unwrap_or (option_map Invalidate result) (Plain Unnamed) ≡ decoded_invalidate number pe address }
{
    match number {
        0 => Some(Scope::All),
        1 => Some(Scope::Pe { pe }),
        2 => Some(Scope::Address {
            pe,
            address: ByteAddress(address),
        }),
        _ => None,
    }
}

/// The operation that six words name: its kind, and then its numbers.
#[inline(always)]
#[tactic(auto, unfolding(cache_words::specs::Operations::decoded_operation))]
pub fn decode_operation(kind: u64, a: u64, b: u64, c: u64, d: u64, e: u64) -> Operation
    ensures { result ≡ decoded_operation kind a b c d e }
{
    match kind {
        EDIT => Operation::Edit { word: a, value: b },
        INVALIDATE => {
            scope(a, b, c).map_or(Operation::Plain(Request::Unnamed), Operation::Invalidate)
        }
        _ => Operation::Plain(layout::decode(kind, a, b, c, d, e)),
    }
}

/// Operation `k` of a list of words; none where its words are not all there.
// Kept: beside `request_at`; both share `words_at`, and differ in decoding and in what stands for no words.
#[inline(always)]
#[tactic(auto, unfolding(cache_words::specs::Operations::operation_in))]
pub fn operation_at(requests: &[u64], k: usize) -> Operation
    ensures { result ≡ operation_in requests.now k }
{
    match word_lists::words_at(requests, k) {
        Some([kind, a, b, c, d, e, ..]) => decode_operation(*kind, *a, *b, *c, *d, *e),
        _ => Operation::Plain(Request::Unnamed),
    }
}

/// Whether operation `k` of a list of words is of a kind that the bridge with a cache alone has: 9, an edit, or 10, an invalidate, whatever its other words name; false
/// where its words are not all there.
#[inline(always)]
#[tactic(auto, unfolding(cache_words::specs::Operations::of_cache_in, cache_words::specs::Operations::of_cache))]
pub fn is_of_cache(requests: &[u64], k: usize) -> bool
    ensures { result ≡ of_cache_in requests.now k }
{
    matches!(
        word_lists::words_at(requests, k),
        Some([EDIT | INVALIDATE, ..])
    )
}
