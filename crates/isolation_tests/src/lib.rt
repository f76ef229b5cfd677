// Groups of PEs: whom a request belongs to, and the premises of isolation as tests. Defined in specs/Group.antt and specs/Seen.antt.
#![tactic(auto)]

mod closed;
pub mod export;
mod seen;
