// Mathematics alone: the orders of two accepted pairs G, H of one field carry over (crate math_carry), and what follows. See specs/.
#![tactic(auto)]
