// The lent tables: as values, their sizes and lengths, and a word of them by its index. Defined in crates/profile/specs/Tables.antt,
// crates/tables/specs/Lent.antt and crates/kinds/specs/Words.antt.
#![tactic(auto)]

pub mod lent;
pub mod sizes;
pub mod words;
