// Mathematics alone: two lists that agree up to a constant factor, two pairs of one field, and how rows of numbers carry over. See specs/.
#![tactic(auto)]
