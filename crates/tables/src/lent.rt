// The lent tables as two values: those that no request writes, and those that requests write. Memory is in neither: only a walk is lent it.
ghost use Rattle.std.specs.Prelude.{◌≡◌, cond, Ok, Err};
ghost use Rattle.kinds.specs.declared.answer.Reason.TheVariants.{TableLength};
ghost use Rattle.profile.specs.Tables.{lengths, sized};
ghost use Rattle.tables.specs.Lent.{seen};

use crate::sizes::pes_of;
use kinds::answer::Reason;
use kinds::record::{Lengths, Sizes};
use std::marker::Model;

/// The tables that no request writes, with N, M and R and the installed size in bytes.
#[derive(Drop)]
pub struct Tables<'a> {
    pub sizes: Sizes,
    pub installed: u64,
    pub requesters: &'a [u16],
    pub entries: &'a [u64],
    pub peers: &'a [u64],
    pub windows: &'a [u64],
    pub segments: &'a [u16],
}

impl<'a> Model for Tables<'a> {
    ghost use Rattle.profile.specs.Tables.{Tables as Fixed};

    ghost Value = { Fixed };

    ghost view = { λ t. record { sizes = t.sizes; installed = t.installed; requesters = t.requesters.now; entries = t.entries.now; peers = t.peers.now; windows = t.windows.now; segments = t.segments.now } };
}

/// The tables that requests write.
// Kept: no Model, since one over `&mut` loses what its maker wrote; `seen` gives its value in clauses, with `Same` beside it.
// Kept: tables, memory, live tables and cache beside each other in what takes them: a check is lent no memory, a request reads it, and an edit alone may write it.
#[derive(Drop)]
pub struct Live<'a> {
    pub state: &'a mut [u64],
    pub interrupts: &'a mut [u64],
}

impl<'a> Live<'a> {
    /// The same tables, to be read.
    #[inline(always)]
    pub fn read(&self) -> LiveRef<'_>
        ensures { result ≡ seen self.now }
    {
        LiveRef {
            state: self.state,
            interrupts: self.interrupts,
        }
    }
}

/// The tables that requests write, lent to be read. Whoever has them as shared slices can make one.
#[derive(Drop)]
pub struct LiveRef<'a> {
    pub state: &'a [u64],
    pub interrupts: &'a [u64],
}

impl<'a> Model for LiveRef<'a> {
    ghost use Rattle.profile.specs.Tables.{Live as Held};

    ghost Value = { Held };

    ghost view = { λ l. record { state = l.state.now; interrupts = l.interrupts.now } };
}

impl<'a> Tables<'a> {
    /// The lengths of all lent tables, in their own words; `memory` is that of memory, in words of 8 bytes.
    #[inline(always)]
    pub fn lengths(&self, memory: usize, live: &LiveRef<'_>) -> Lengths
        ensures { result ≡ lengths self.now memory live.now }
    {
        Lengths {
            requesters: self.requesters.len() as u64,
            entries: self.entries.len() as u64,
            memory: memory as u64,
            peers: self.peers.len() as u64,
            interrupts: live.interrupts.len() as u64,
            windows: self.windows.len() as u64,
            segments: self.segments.len() as u64,
            state: live.state.len() as u64,
        }
    }

    /// N. The error is reason 1, where N, M, R or one of `lengths` is not on the table of the profile.
    #[inline(always)]
    pub fn pes_by_lengths(&self, lengths: Lengths) -> Result<u16, Reason>
        ensures { result ≡ cond (sized self.now.sizes lengths) (Ok self.now.sizes.pes) (Err TableLength) }
    {
        pes_of(self.sizes, lengths)
    }

    /// N. The error is reason 1, where N, M, R or a length is not on the table of the profile. `memory` is the length of memory, in words of 8 bytes.
    #[inline(always)]
    pub fn sized_pes(&self, memory: usize, live: &LiveRef<'_>) -> Result<u16, Reason>
        ensures { result ≡ cond (sized self.now.sizes (lengths self.now memory live.now)) (Ok self.now.sizes.pes) (Err TableLength) }
    {
        self.pes_by_lengths(self.lengths(memory, live))
    }
}
