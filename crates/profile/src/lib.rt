// The definition of the profile: what every request is answered and leaves, with laws and cases. It stands in specs/, laws and cases
// in proofs/; the code's constants are here.
#![tactic(auto)]

pub mod limits;
