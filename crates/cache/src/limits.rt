// The numbers of the translation cache, once for all code. The definition has each under the same name: specs/Slots.

/// The slots of the cache, the words of one, and the words of all.
pub const SLOT_COUNT: u64 = 256;

pub const SLOT_WORDS: u64 = 4;

pub const CACHE_WORDS: u64 = 1024;

/// The rule that chooses a slot adds this for each of a PE's two records.
pub const SLOT_FACTOR: u64 = 37;
