// Mathematics alone: the worked examples P1 to P12 of document 01 hold, by one theorem. The table is crate examples_table.
#![tactic(auto)]
