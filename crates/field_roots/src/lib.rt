// Mathematics alone: the pair r, w of a cubic field. The definitions are in specs/, the theorems in proofs/.
#![tactic(auto)]
