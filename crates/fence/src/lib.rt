// The fence: its word in the state, read and changed. Defined in crates/profile/specs/Fence.antt.
#![tactic(auto)]

ghost use Rattle.std.specs.Prelude.{◌≡◌, ◌-◌, ◌^◌, min};
ghost use Rattle.kinds.specs.Words.{at};
ghost use Rattle.profile.specs.Fence.{fence_word, fenced, with_fence, fence_to};

use endpoints::STATE_WORDS;
use tables::words::{put, word};

// The place of the fence word in the state of so many PEs, after the words of all; one that no state has, where it is past every index.
fn place(pes: u64) -> usize
    ensures { result ≡ min (fence_word pes) (2 ^ 64 - 1) }
{
    (pes as usize).saturating_mul(STATE_WORDS)
}

/// The fence word in the state of so many PEs, 0 where it has none.
pub fn fence_word(state: &[u64], pes: u64) -> u64
    ensures { result ≡ at state.now (fence_word pes) }
{
    word(state, place(pes))
}

/// Whether a bridge with this fence word is fenced.
pub fn is_fenced(word: u64) -> bool
    ensures { result ≡ fenced word }
{
    word % 2 == 1
}

/// The fence bit in the state of so many PEs becomes `bit`. Where the state has no fence word, nothing is written.
pub fn set_fence(state: &mut [u64], pes: u64, bit: bool)
    ensures { state.new ≡ fence_to pes bit state.old }
{
    let place = place(pes);
    let old = word(state, place);
    put(state, place, with_fence(old, bit));
}

// A fence word with its bit set or clear: the others stay.
#[tactic(auto, unfolding(profile::specs::Fence::with_fence))]
fn with_fence(word: u64, bit: bool) -> u64
    ensures { result ≡ with_fence bit word }
{
    word / 2 * 2 + u64::from(bit)
}
