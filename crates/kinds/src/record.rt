// The sizes of the lent tables, and their records word by word.

/// The numbers that are given with the tables: N, M and R.
#[derive(Clone, Copy, Debug, PartialEq, Eq)]
pub struct Sizes {
    pub pes: u64,
    pub interrupts: u64,
    pub requesters: u64,
}

/// The lengths of the lent tables.
#[derive(Clone, Copy, Debug, PartialEq, Eq)]
pub struct Lengths {
    pub requesters: u64,
    pub entries: u64,
    pub memory: u64,
    pub peers: u64,
    pub interrupts: u64,
    pub windows: u64,
    pub segments: u64,
    pub state: u64,
}

/// A translation entry. In a bypass, `base` and `levels` are its start and its end.
#[derive(Clone, Copy, Debug, PartialEq, Eq)]
pub struct TranslationEntry {
    pub base: u64,
    pub levels: u64,
    pub table: u64,
    pub page: u64,
}

/// An interrupt. `bits` is 2P + Q.
#[derive(Clone, Copy, Debug, PartialEq, Eq)]
pub struct Interrupt {
    pub pe: u64,
    pub server: u64,
    pub priority: u64,
    pub bits: u64,
}

/// An M64 window.
#[derive(Clone, Copy, Debug, PartialEq, Eq)]
pub struct Window {
    pub base: u64,
    pub size: u64,
    pub mode: u64,
    pub pe: u64,
}
