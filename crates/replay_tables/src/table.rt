// One lent table: a word of the part in use set.
ghost use Rattle.std.specs.Prelude.{◌≡◌, ◌*◌, ◌^◌, ◌≤◌, cond, ltb, min, length, Some, None};
ghost use Rattle.replay_tables.specs.Lent.{state_used};
ghost use Rattle.replay_tables.specs.Promise.{SetPart};

use crate::state_used;
use replay_text::BadLine;
use table_lists::used;

// A word of 16 bits, where the value is not too wide for one.
pub(crate) fn short(value: u64) -> Option<u16>
    ensures { result ≡ cond (ltb value (2 ^ 16)) (Some value) None }
{
    u16::try_from(value).ok()
}

// Sets word `index` of the part in use, the first `count` times `each` words; a word that is not there, and no value, is a bad line, and nothing is written.
// Kept: the list with `count` and `each`, since it is lent longer than its words in use.
pub(crate) fn set_word<T: Copy>(
    table: &mut [T],
    count: u64,
    each: u64,
    index: u64,
    value: Option<T>,
) -> Result<(), BadLine>
    ensures { SetPart (min (count * each) (length table.old)) table.old index value result table.new }
{
    let end = used(count, each, table.len());
    set_first(table, end, index, value)
}

// The same of the state.
pub(crate) fn set_state(state: &mut [u64], pes: u64, index: u64, value: u64) -> Result<(), BadLine>
    ensures { SetPart (min (state_used pes) (length state.old)) state.old index (Some value) result state.new }
{
    let end = state_used(pes, state.len());
    set_first(state, end, index, Some(value))
}

// The same of the first `end` words.
fn set_first<T: Copy>(
    table: &mut [T],
    end: usize,
    index: u64,
    value: Option<T>,
) -> Result<(), BadLine>
    requires { end ≤ length table.old }
    ensures { SetPart end table.old index value result table.new }
{
    match value {
        Some(value) if index < end as u64 => {
            table[index as usize] = value;
            Ok(())
        }
        _ => Err(BadLine),
    }
}
