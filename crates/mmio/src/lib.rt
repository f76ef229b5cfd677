// A load or store by its window: whose it is, and what it is answered. Defined in crates/profile/specs/Step.antt.
#![tactic(auto)]

ghost use Rattle.std.specs.Prelude.{◌≡◌, min};
ghost use Rattle.kinds.specs.Words.{at};
ghost use Rattle.kinds.specs.declared.outcome.Check.TheVariants.{Kept};
ghost use Rattle.owners.specs.ByOwner.{by_owner};
ghost use Rattle.profile.specs.Freeze.{stop_word};
ghost use Rattle.profile.specs.Owner.{of_hit};
ghost use Rattle.profile.specs.Step.{accessed};
ghost use Rattle.profile.specs.Windows.{ones_of};

use endpoints;
use kinds::answer::Answer;
use kinds::lookup::Hit;
use kinds::number::PeNumber;
use kinds::outcome::Check;
use outcomes;
use owners;

// A load or store of a PE, by the PE's stop word; `stopped` is its answer where the PE is MMIO stopped.
#[tactic(auto, unfolding(profile::specs::Step::accessed))]
fn access(hit: Option<Hit>, pe: PeNumber, stop: u64, stopped: Answer) -> Answer
    ensures { result ≡ accessed hit pe stop stopped }
{
    match hit {
        Some(hit) if !endpoints::mmio_stopped(stop) => Answer::Pass {
            address: hit.pci,
            pe,
            words: 0,
        },
        _ => stopped,
    }
}

/// All ones of a width in bytes, of which a word has at most 8.
#[tactic(auto, using(crate::proofs::MmioLaws::ones_fit, crate::proofs::MmioLaws::ones_narrow, crate::proofs::MmioLaws::ones_wide))]
pub fn ones(width: u64) -> u64
    ensures { result ≡ ones_of (min width 8) }
{
    if width < 8 {
        (1 << (8 * width)) - 1
    } else {
        u64::MAX
    }
}

/// A load or store, by the owner of its window; `stopped` is the answer where that PE is MMIO stopped. Refused with `NoWindow` where it has none.
#[tactic(auto, unfolding(owners::specs::ByOwner::by_owner))]
pub fn access_of(pes: u16, state: &[u64], hit: Option<Hit>, stopped: Answer) -> Check
    ensures { result ≡ by_owner (λ p. Kept (accessed hit p (at state.now (stop_word p)) stopped)) (of_hit pes hit) }
{
    let owner = owners::of_hit(pes, hit);
    owner.map_or_else(outcomes::refuse, |pe| {
        let stop = endpoints::stop_word(state, pe);
        Check::Kept(access(hit, pe, stop, stopped))
    })
}
