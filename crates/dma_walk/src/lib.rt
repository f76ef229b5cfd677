// The translation of an offset by an entry: the walk of a page table, and what it gives. It knows no PE. Defined in crates/profile/specs/Walk.antt.
#![tactic(auto)]

pub mod touch;
pub mod translate;
pub mod walk;
