// The freeze of a PE, alone or with its peers: stop bits and error records. Defined in crates/profile/specs/Freeze.antt.
#![tactic(auto)]

ghost use Rattle.std.specs.Prelude.{◌≡◌, ◌+◌, ◌*◌, ◌^◌, ◌<◌};
ghost use Rattle.kinds.specs.Answer.{reason_number};
ghost use Rattle.profile.specs.Freeze.{as_peer, froze};
ghost use Rattle.profile.specs.Tables.{state_words};
ghost use Rattle.freeze.specs.Turn.{recorded, stopped, turned, lists_nobody, peers_stopped, end_of, froze_all};

use endpoints::{STATE_WORDS, is_listed};
use kinds::answer::Reason;
use kinds::number::{NO_WORD, PeNumber};
use kinds::outcome::ErrorRecord;
use tables::words::{put, word};

/// PE `pe` and every PE below N in `peers` are stopped, as one step. A freeze alone has a vector of zeros.
#[tactic(auto, using(crate::proofs::Laws::part_within, crate::proofs::Laws::part_length, crate::proofs::Laws::part_froze))]
pub fn freeze(state: &mut [u64], pes: u64, peers: [u64; 4], pe: PeNumber, error: ErrorRecord)
    ensures { state.new ≡ froze pes peers pe error state.old }
{
    let end = end_of(state.len(), pes);
    freeze_all(&mut state[..end], peers, pe, error);
}

// Where the words of the PEs below N end in a state of this many words.
#[tactic(auto, unfolding(crate::specs::Turn::end_of))]
fn end_of(words: usize, pes: u64) -> usize
    ensures { result ≡ end_of words pes }
{
    (pes as usize).saturating_mul(STATE_WORDS).min(words)
}

// The freeze where every word is that of a PE below N: the failing PE, then its peers, if it lists any.
#[tactic(auto, using(crate::proofs::Laws::froze_both, crate::proofs::Laws::froze_alone))]
fn freeze_all(state: &mut [u64], peers: [u64; 4], pe: PeNumber, error: ErrorRecord)
    ensures { state.new ≡ froze_all peers pe error state.old }
{
    stop(state, usize::from(pe.0), error);
    if !lists_nobody(peers) {
        stop_peers(state, peers, pe);
    }
}

// Whether no bit of a peer vector is set.
fn lists_nobody(vector: [u64; 4]) -> bool
    ensures { result ≡ lists_nobody vector }
{
    vector == [0; 4]
}

// Every PE in the vector is stopped as a peer of PE `pe`. The last turn is for words that are not all those of a PE.
#[tactic(auto, using(crate::proofs::Laws::turn_first, crate::proofs::Laws::turn_next))]
fn stop_peers(state: &mut [u64], peers: [u64; 4], pe: PeNumber)
    ensures { state.new ≡ peers_stopped peers pe state.old }
{
    // Kept: a loop that counts by hand, for speed: its test is that all four words of PE k are there, which a turn of a `for` asks word by word.
    let mut k: usize = 0;
    while k * STATE_WORDS + 3 < state.len() {
        turn(state, k, is_listed(&peers, k), pe);
        k += 1;
    }
    turn(state, k, is_listed(&peers, k), pe);
}

// The turn of PE k; `is_peer` says whether it is in the vector. PE `pe` in its own vector counts as the failing one.
// Kept: `is_peer` is handed in; with an `if` at the end of the turn of `stop_peers` the proof leaves the invariant open.
#[tactic(auto, unfolding(crate::specs::Turn::turned))]
fn turn(state: &mut [u64], k: usize, is_peer: bool, pe: PeNumber)
    requires { k * state_words < 2 ^ 62 }
    ensures { state.new ≡ turned is_peer pe state.old k }
{
    if is_peer && k != usize::from(pe.0) {
        stop(state, k, as_peer(pe));
    }
}

// The record of a peer: the failing PE's number, and no table word.
fn as_peer(pe: PeNumber) -> ErrorRecord
    ensures { result ≡ as_peer pe }
{
    ErrorRecord {
        reason: Reason::FrozenAsPeer,
        value: u64::from(pe.0),
        word: NO_WORD,
    }
}

// Both stop bits of PE k are set, the others stay, and its record is written if it is empty.
#[tactic(auto, unfolding(crate::specs::Turn::stopped))]
fn stop(state: &mut [u64], k: usize, error: ErrorRecord)
    requires { k * state_words < 2 ^ 62 }
    ensures { state.new ≡ stopped (reason_number error.reason) error.value error.word.0 state.old k }
{
    let first = k * STATE_WORDS;
    let bits = word(state, first);
    let recorded = word(state, first + 1);
    put(state, first, bits / 4 * 4 + 3);
    if recorded == 0 {
        record(state, first, error);
    }
}

// The error record of the PE whose words start at `first` is written.
#[tactic(auto, unfolding(crate::specs::Turn::recorded))]
fn record(state: &mut [u64], first: usize, error: ErrorRecord)
    requires { first < 2 ^ 62 }
    ensures { state.new ≡ recorded (reason_number error.reason) error.value error.word.0 state.old first }
{
    put(state, first + 1, u64::from(error.reason));
    put(state, first + 2, error.value);
    put(state, first + 3, error.word.0);
}
