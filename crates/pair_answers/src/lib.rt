// Mathematics alone: what the functions answer for two pairs of one field. See specs/.
#![tactic(auto)]
