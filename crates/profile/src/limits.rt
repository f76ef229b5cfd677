// The numbers of the lent tables, once for all code. The definition has each under the same name: specs/Tables, Windows, Entry and Msi.

/// The words of a PE's translation entries and of one of its two records, of a PE's peers, of an interrupt, of a PE's state.
pub const ENTRY_WORDS: u64 = 8;

pub const RECORD_WORDS: u64 = 4;

pub const PEER_WORDS: u64 = 4;

pub const INTERRUPT_WORDS: u64 = 4;

pub const STATE_WORDS: u64 = 4;

/// The words of the state after those of the PEs: the fence word.
pub const FENCE_WORDS: u64 = 1;

/// The words of all windows: those of M32 first, then those of the M64 windows.
pub const WINDOW_WORDS: u64 = 67;

pub const M32_WORDS: u64 = 3;

pub const M64_WORDS: u64 = 4;

pub const M64_COUNT: u64 = 16;

pub const SEGMENT_COUNT: u64 = 256;

/// The most PEs, interrupts, requesters and words of memory.
pub const MOST_PES: u64 = 256;

pub const MOST_INTERRUPTS: u64 = 4096;

pub const MOST_REQUESTERS: u64 = 65536;

pub const MOST_MEMORY: u64 = 1048576;

/// The bytes of a word of memory.
pub const WORD_BYTES: u64 = 8;

/// The largest table code; a table of code c has 2^(c + 8) words.
pub const MOST_TABLE_CODE: u64 = 31;

pub const CODE_BITS: u64 = 8;

pub const MOST_LEVELS: u64 = 5;

/// The bits of an offset in a window of the DMA class; no page table spans more.
pub const OFFSET_BITS: u64 = 59;

/// The priority that holds every MSI. No priority is above it.
pub const HOLDING: u64 = 255;
