// Two accepted pairs of lists over one p: whether they are of one field. The door, which refuses, is crate door_compare.
#![tactic(auto)]

ghost use Rattle.base_answers.specs.Decides.{Decides};
ghost use Rattle.pair_laws.specs.OneField.{OneField};
ghost use Rattle.pair_agree.specs.Answer.{Both, Pairs};

use pair_lists::agree;

// The order in which two pairs agree after all lists are made monic.
#[derive(Clone, Copy, PartialEq, Eq)]
pub enum Pairing {
    Straight,
    Swapped,
    Apart,
}

// The order in which two accepted pairs agree.
pub fn paired(p: u64, g: &[u64], h: &[u64], g2: &[u64], h2: &[u64]) -> Pairing
    requires { Both p g.now h.now g2.now h2.now }
    ensures { Pairs p g.now h.now g2.now h2.now result }
{
    if agree(p, g, g2) {
        if agree(p, h, h2) {
            Pairing::Straight
        } else {
            Pairing::Apart
        }
    } else if agree(p, g, h2) && agree(p, h, g2) {
        Pairing::Swapped
    } else {
        Pairing::Apart
    }
}

// Are two accepted pairs of one field?
pub fn one_field(p: u64, g: &[u64], h: &[u64], g2: &[u64], h2: &[u64]) -> bool
    requires { Both p g.now h.now g2.now h2.now }
    ensures { Decides result (OneField p g.now h.now g2.now h2.now) }
{
    paired(p, g, h, g2, h2) != Pairing::Apart
}
