// Mathematics alone: how the order of one pair G, H goes to that of another, and with it ideals, bases, steps, chains and units. See specs/.
#![tactic(auto)]
