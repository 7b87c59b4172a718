// Demand 1 and what the book's functions mean together, as statements and theorems; there is no code.
#![tactic(auto)]
