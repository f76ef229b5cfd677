// Lent lists as a whole: how many of their words are in use, and all of them cleared. Defined in crates/table_lists/specs/Once.antt.
#![tactic(auto)]

ghost use Rattle.std.specs.Prelude.{◌≡◌, ◌*◌, min, length, replicate};
ghost use Rattle.table_lists.specs.Once.{once};

/// 1 where there are PEs, and with them windows and segments; else 0. `pes` is N.
pub fn once(pes: u64) -> u64
    ensures { result ≡ once pes }
{
    u64::from(pes != 0)
}

/// How many words of a list of `length` words are in use: `count` times `each`, or all where it has no more.
pub fn used(count: u64, each: u64, length: usize) -> usize
    ensures { result ≡ min (count * each) length }
{
    count.saturating_mul(each).min(length as u64) as usize
}

/// Every word of the list becomes 0.
// Kept: a function, since with `fill` in place of it the proof of `mark_members` does not close.
pub fn clear(list: &mut [u64])
    ensures { list.new ≡ replicate (length list.old) 0 }
{
    list.fill(0);
}
