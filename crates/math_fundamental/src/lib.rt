// The unit of a closing chain is fundamental: definitions in specs/, theorems in proofs/.
#![tactic(auto)]
