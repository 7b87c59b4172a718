// Mathematics alone: commutative rings, and the solver of their identities.
#![tactic(auto)]
