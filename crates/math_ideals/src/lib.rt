// Mathematics alone: elements, ideals and reduced bases of a purely cubic function field, as document 01 defines them.
#![tactic(auto)]
