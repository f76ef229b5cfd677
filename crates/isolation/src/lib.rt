// Demand 3: what a group of PEs is answered and left does not depend on its neighbours. A theorem about the profile: what it
// claims stands in specs/, that it holds in proofs/.
#![tactic(auto)]
