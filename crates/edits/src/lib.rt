// The bridge whose memory firmware edits, and demand 3 of it. A theorem about the profile: what it
// claims stands in specs/, that it holds in proofs/.
#![tactic(auto)]
