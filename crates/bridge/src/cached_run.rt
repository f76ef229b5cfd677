// A list of operations as words on the bridge with a translation cache, and their answers as words. Each operation gets the tables as the last one left them.
ghost use Rattle.std.specs.Prelude.{◌≡◌};
ghost use Rattle.cache_handle.specs.Lent.{held};
ghost use Rattle.tables.specs.Lent.{seen, Same};
ghost use Rattle.bridge.specs.CachedPromise.{RanCached};

use crate::run::count_of;
use cache_handle;
use cache_lists;
use request_lists::word_lists;
use tables::lent::{Live, Tables};

/// As many whole operations as both lists of words hold are served; their number is returned, and all other words stay.
pub fn cached_run(
    tables: &Tables<'_>,
    memory: &mut [u64],
    live: &mut Live<'_>,
    cache: &mut [u64],
    requests: &[u64],
    answers: &mut [u64],
) -> usize
    ensures ran { RanCached tables.now requests.now (held memory.old (seen live.old) cache.old) answers.old result (held memory.new (seen live.new) cache.new) answers.new }
    ensures same { Same live.old live.new }
{
    let count = count_of(requests.len(), answers.len());
    for k in 0..count {
        let operation = cache_lists::operation_at(requests, k);
        let answer = cache_handle::operate(tables, memory, live, cache, operation);
        word_lists::write_answer(answers, k, answer);
    }
    count
}
