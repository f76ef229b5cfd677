// What an address of a DMA picks, and what the entry says of it before memory is read. Defined in crates/profile/specs/Entry.antt.
#![tactic(auto)]

pub mod addresses;
pub mod ask;
