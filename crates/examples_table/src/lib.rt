// Mathematics alone: the worked examples P1 to P12 of document 01 as one table, and a test of each line, which it passes.
#![tactic(auto)]
