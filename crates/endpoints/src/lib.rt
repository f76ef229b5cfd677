// The words of a PE: its stop bits and its error record, with their release by firmware, and its peer vector. Defined in crates/profile/specs/Freeze.antt.
#![tactic(auto)]

ghost use Rattle.std.specs.Prelude.{◌≡◌};
ghost use Rattle.kinds.specs.Words.{at, bit_of};
ghost use Rattle.profile.specs.Freeze.{mmio_stopped, dma_stopped, stop_word, released, vector_in};

use kinds::number::PeNumber;
use kinds::request::Part;
use profile::limits;
use tables::words::{put, word};

/// The words of a PE in the state: stop bits, reason, value, table word.
pub const STATE_WORDS: usize = limits::STATE_WORDS as usize;

/// Whether a PE with this stop word is stopped for loads and stores: bit 0.
pub fn mmio_stopped(stop: u64) -> bool
    ensures { result ≡ mmio_stopped stop }
{
    stop % 2 == 1
}

/// Whether a PE with this stop word is stopped for DMA and MSIs: bit 1.
pub fn dma_stopped(stop: u64) -> bool
    ensures { result ≡ dma_stopped stop }
{
    stop / 2 % 2 == 1
}

/// The stop word of a PE, 0 where the state has none.
pub fn stop_word(state: &[u64], pe: PeNumber) -> u64
    ensures { result ≡ at state.now (stop_word pe) }
{
    word(state, usize::from(pe.0) * STATE_WORDS)
}

/// One stop bit of the PE is cleared, or the words of its error record become 0. Words that the state does not have are not written.
#[tactic(auto, unfolding(profile::specs::Freeze::released))]
pub fn release(state: &mut [u64], pe: PeNumber, part: Part)
    ensures { state.new ≡ released part pe state.old }
{
    let first = usize::from(pe.0) * STATE_WORDS;
    let bits = word(state, first);
    match part {
        Part::Mmio => put(state, first, bits / 2 * 2),
        Part::Dma => put(state, first, bits / 4 * 4 + bits % 2),
        Part::Record => {
            put(state, first + 1, 0);
            put(state, first + 2, 0);
            put(state, first + 3, 0);
        }
    }
}

// The words of a peer vector.
const PEER_WORDS: usize = limits::PEER_WORDS as usize;

/// The peer vector of a PE: bit k mod 64 of word k div 64 is that of PE k. A word that the table does not have is 0.
// Kept: an array of four words by value: the project has the vector so, and the peers are read before the state is written.
pub fn peer_vector(peers: &[u64], pe: PeNumber) -> [u64; 4]
    ensures { result ≡ vector_in peers.now pe }
{
    let first = usize::from(pe.0) * PEER_WORDS;
    [
        word(peers, first),
        word(peers, first + 1),
        word(peers, first + 2),
        word(peers, first + 3),
    ]
}

/// Whether PE k is in a bit vector: bit k mod 64 of word k div 64.
pub fn is_listed(vector: &[u64], k: usize) -> bool
    ensures { result ≡ bit_of vector.now k }
{
    (word(vector, k / 64) >> (k % 64)) % 2 == 1
}
