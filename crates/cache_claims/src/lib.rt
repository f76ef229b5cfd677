// What holds of the bridge with a translation cache: it answers as the one without, demand 3 through caches and edits, and release. Theorems: what they
// claim stands in specs/, that it holds in proofs/.
#![tactic(auto)]
