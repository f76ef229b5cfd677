// What the history of a bridge says of a PE: its stop bits and its error record, and that it is released. A theorem about the profile: what it
// claims stands in specs/, that it holds in proofs/.
#![tactic(auto)]
