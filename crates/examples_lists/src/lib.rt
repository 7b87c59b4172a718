// Mathematics alone: reckoning with lists of coefficients mod p, and what it proves of the polynomials.
#![tactic(auto)]
