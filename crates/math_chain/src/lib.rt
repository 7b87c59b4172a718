// Mathematics alone: the step from a reduced basis to the next, and the chain of steps.
#![tactic(auto)]
