// Reason 1: whether the numbers N, M and R and the lengths of the lent tables are on the table of the profile.
ghost use Rattle.std.specs.Prelude.{◌≡◌, ◌≤◌, cond, Ok, Err};
ghost use Rattle.kinds.specs.declared.answer.Reason.TheVariants.{TableLength};
ghost use Rattle.kinds.specs.Tests.{all};
ghost use Rattle.profile.specs.Tables.{most_pes, most_interrupts, limits, dma_lengths, other_lengths, sized};

use kinds::answer::Reason;
use kinds::record::{Lengths, Sizes};
use profile::limits::{
    ENTRY_WORDS, FENCE_WORDS, INTERRUPT_WORDS, MOST_INTERRUPTS, MOST_MEMORY, MOST_PES,
    MOST_REQUESTERS, PEER_WORDS, SEGMENT_COUNT, STATE_WORDS, WINDOW_WORDS,
};

/// Whether N, M and R and all lengths are on the table of the profile.
#[inline(always)]
#[tactic(auto, using(crate::proofs::SizedLaws::sized_is))]
pub fn sized(sizes: Sizes, lengths: Lengths) -> bool
    ensures { result ≡ sized sizes lengths }
{
    in_limits(sizes) && dma_tables(sizes, lengths) && other_tables(sizes, lengths)
}

// N, or reason 1.
#[inline(always)]
#[tactic(auto, using(crate::proofs::SizedLaws::pes_fit))]
pub(crate) fn pes_of(sizes: Sizes, lengths: Lengths) -> Result<u16, Reason>
    ensures { result ≡ cond (sized sizes lengths) (Ok sizes.pes) (Err TableLength) }
{
    if sized(sizes, lengths) {
        Ok(sizes.pes as u16)
    } else {
        Err(Reason::TableLength)
    }
}

#[inline(always)]
fn in_limits(sizes: Sizes) -> bool
    ensures { result ≡ all (limits sizes) }
{
    (1..=MOST_PES).contains(&sizes.pes)
        && sizes.interrupts <= MOST_INTERRUPTS
        && (1..=MOST_REQUESTERS).contains(&sizes.requesters)
}

#[inline(always)]
fn dma_tables(sizes: Sizes, lengths: Lengths) -> bool
    requires { sizes.pes ≤ most_pes }
    ensures { result ≡ all (dma_lengths sizes lengths) }
{
    lengths.requesters == sizes.requesters
        && lengths.entries == sizes.pes * ENTRY_WORDS
        && lengths.memory <= MOST_MEMORY
}

#[inline(always)]
fn other_tables(sizes: Sizes, lengths: Lengths) -> bool
    requires { (sizes.pes ≤ most_pes) × (sizes.interrupts ≤ most_interrupts) }
    ensures { result ≡ all (other_lengths sizes lengths) }
{
    lengths.peers == sizes.pes * PEER_WORDS
        && lengths.interrupts == sizes.interrupts * INTERRUPT_WORDS
        && lengths.windows == WINDOW_WORDS
        && lengths.segments == SEGMENT_COUNT
        && lengths.state == sizes.pes * STATE_WORDS + FENCE_WORDS
}
