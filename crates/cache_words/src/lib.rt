// Operations on the bridge with a translation cache as words, and lists of them. The definition stands in specs/, its laws in proofs/.
#![tactic(auto)]
