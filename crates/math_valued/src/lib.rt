// Mathematics alone: a ring of series with leading coefficients, its degrees and its polynomials.
#![tactic(auto)]
