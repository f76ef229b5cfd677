// What a replay is lent for its tables: each list whole, the words in use and those after them.
// Kept: no Model, and so a clause `Same` beside what is written: a Model over `&mut` lists loses what their maker wrote.
ghost use Rattle.std.specs.Prelude.{◌≡◌};
ghost use Rattle.tables.specs.Tables.{lengths_of};

use kinds::record::Lengths;

#[derive(Drop)]
pub struct Lent<'a> {
    pub requesters: &'a mut [u16],
    pub entries: &'a mut [u64],
    pub memory: &'a mut [u64],
    pub peers: &'a mut [u64],
    pub interrupts: &'a mut [u64],
    pub windows: &'a mut [u64],
    pub segments: &'a mut [u16],
    pub state: &'a mut [u64],
}

impl<'a> Lent<'a> {
    /// The length of each list in words, past those in use too.
    // Kept: as in `tables`: the lists are those of two types, and one function of eight lengths would be handed eight.
    pub fn lengths(&self) -> Lengths
        ensures { result ≡ lengths_of self.now.requesters.now self.now.entries.now self.now.memory.now self.now.peers.now self.now.interrupts.now self.now.windows.now self.now.segments.now self.now.state.now }
    {
        Lengths {
            requesters: self.requesters.len() as u64,
            entries: self.entries.len() as u64,
            memory: self.memory.len() as u64,
            peers: self.peers.len() as u64,
            interrupts: self.interrupts.len() as u64,
            windows: self.windows.len() as u64,
            segments: self.segments.len() as u64,
            state: self.state.len() as u64,
        }
    }
}
