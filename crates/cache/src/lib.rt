// The translation cache, the bridge with it, and that it answers as the bridge without one. Definitions stand in specs/, theorems in proofs/.
#![tactic(auto)]

pub mod limits;
