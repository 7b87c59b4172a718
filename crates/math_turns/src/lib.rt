// Mathematics alone: elements b r + c w, their sizes, and what the turns of a reduction do to them.
#![tactic(auto)]
