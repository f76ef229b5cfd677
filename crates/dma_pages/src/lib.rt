// The page that a byte address lies in, and the shape of a page table by its entry. Defined in crates/profile/specs/Entry.antt and crates/kinds/specs/Number.antt.
#![tactic(auto)]

pub mod page_tables;
pub mod pages;
