// Demands 2 and 3 as statements and theorems; there is no code.
#![tactic(auto)]
