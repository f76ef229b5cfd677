// Groups of PEs, and marks on the memory words that walks of their members read. Defined in crates/isolation_reach/specs/Footprint.antt.
#![tactic(auto)]

pub mod footprint;
mod levels;
pub mod marks;
mod room;
