// What requests add to the demands, as statements and theorems; there is no code.
#![tactic(auto)]
