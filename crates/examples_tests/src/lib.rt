// Mathematics alone: tests that compute on written lists and prove what a field, a basis, a step, a walk and a unit are.
#![tactic(auto)]
