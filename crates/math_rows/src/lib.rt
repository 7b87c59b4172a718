// Mathematics alone: how lists of numbers are read as polynomials over the field of p elements.
#![tactic(auto)]
