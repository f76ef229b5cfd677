// Requests and answers in lists of words: request k is read, and answer k written.
ghost use Rattle.std.specs.Prelude.{◌≡◌, ◌/◌, ◌*◌, if◌then◌else◌, ltb, Some, None, length, option_map, take, drop};
ghost use Rattle.request_words.specs.Layout.{request_in, request_words, written_in};

use crate::layout;
use kinds::answer::{Answer, Numbers};
use kinds::request::Request;

/// The words of request `k` of a list of words, where they are all there.
#[inline(always)]
pub fn words_at(requests: &[u64], k: usize) -> Option<&[u64]>
    ensures { option_map (λ r. r.now) result ≡ (if ltb k (length requests.now / request_words) then Some (take request_words (drop (k * request_words) requests.now)) else None) }
{
    if k < requests.len() / layout::REQUEST_WORDS {
        let at = k * layout::REQUEST_WORDS;
        Some(&requests[at..at + layout::REQUEST_WORDS])
    } else {
        None
    }
}

/// Request `k` of a list of words; none where its words are not all there.
#[inline(always)]
#[tactic(auto, unfolding(request_words::specs::Layout::request_in))]
pub fn request_at(requests: &[u64], k: usize) -> Request
    ensures { result ≡ request_in requests.now k }
{
    match words_at(requests, k) {
        Some([kind, a, b, c, d, e, ..]) => layout::decode(*kind, *a, *b, *c, *d, *e),
        _ => Request::Unnamed,
    }
}

/// An answer written as answer `k` of a list of words; nothing where its words are not all there.
#[inline(always)]
#[tactic(auto, using(crate::proofs::ListLaws::eight_set), unfolding(request_words::specs::Layout::written_in, request_words::specs::Layout::written))]
pub fn write_answer(answers: &mut [u64], k: usize, answer: Answer)
    ensures { answers.new ≡ written_in answers.old k answer }
{
    if k < answers.len() / layout::ANSWER_WORDS {
        let numbers = Numbers::from(answer);
        let at = k * layout::ANSWER_WORDS;
        // Kept: by index, since `copy_from_slice` of the eight words takes some 30 instructions more to an answer, so that every work of bench/run gets slower.
        answers[at] = numbers.name;
        answers[at + 1] = numbers.reason;
        answers[at + 2] = numbers.value;
        answers[at + 3] = numbers.words;
        answers[at + 4] = numbers.pe;
        answers[at + 5] = numbers.server;
        answers[at + 6] = numbers.priority;
        answers[at + 7] = numbers.word;
    }
}
