// A list of requests as words, and their answers as words. Each request gets the tables as the last one left them.
ghost use Rattle.std.specs.Prelude.{◌≡◌, ◌/◌, min};
ghost use Rattle.request_words.specs.Layout.{request_words, answer_words};
ghost use Rattle.tables.specs.Lent.{seen, Same};
ghost use Rattle.bridge.specs.Promise.{RanAll};

use handle;
use request_lists::{layout, word_lists};
use tables::lent::{Live, Tables};

// How many whole requests and answers two lists of words of these lengths both hold.
pub(crate) fn count_of(requests: usize, answers: usize) -> usize
    ensures { result ≡ min (requests / request_words) (answers / answer_words) }
{
    (requests / layout::REQUEST_WORDS).min(answers / layout::ANSWER_WORDS)
}

/// As many whole requests as both lists of words hold are served; their number is returned, and all other words stay.
// Kept: this and `cached_run` apart: a loop of three lines each; one over a trait would have a longer head than both.
pub fn run(
    tables: &Tables<'_>,
    memory: &[u64],
    live: &mut Live<'_>,
    requests: &[u64],
    answers: &mut [u64],
) -> usize
    ensures ran { RanAll tables.now memory.now requests.now (seen live.old) answers.old result (seen live.new) answers.new }
    ensures same { Same live.old live.new }
{
    let count = count_of(requests.len(), answers.len());
    for k in 0..count {
        let request = word_lists::request_at(requests, k);
        let answer = handle::handle(tables, memory, live, request);
        word_lists::write_answer(answers, k, answer);
    }
    count
}
