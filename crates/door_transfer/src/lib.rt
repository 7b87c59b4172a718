// The rows of a unit carried over from one pair to another pair of the same field. specs/Transfer.antt says what the answer and the lent
// slice are, crate pair_carry does the work.
#![tactic(auto)]

ghost use Rattle.base_answers.specs.Faults.{no_of};
ghost use Rattle.field_open.specs.Padding.{unpad};
ghost use Rattle.door_transfer.specs.Transfer.{Goes, Transfers};
ghost use Rattle.pair_agree.specs.Answer.{Both};

use base_answers::{Fault, no_six_rows};
use pair_agree::Pairing;
use pair_carry::{carry, carry_swapped};

// The rows of two accepted pairs: carried over where the slice has six rows and the pairs are of one field, else refusal 14.
fn carry_between(
    p: u64,
    g: &[u64],
    h: &[u64],
    g2: &[u64],
    h2: &[u64],
    rows: &mut [u16],
) -> Result<(), Fault>
    requires { Both p g.now h.now g2.now h2.now }
    ensures { Goes p g.now h.now g2.now h2.now rows.old (no_of result) rows.new }
{
    if no_six_rows(rows.len()) {
        return Err(Fault::OutOfRule);
    }
    let c = rows.len() / 6;
    match pair_agree::paired(p, g, h, g2, h2) {
        Pairing::Straight => {
            carry(p, g, h, g2, h2, c, rows);
            Ok(())
        }
        Pairing::Swapped => {
            carry_swapped(p, g, h, g2, h2, c, rows);
            Ok(())
        }
        Pairing::Apart => Err(Fault::OutOfRule),
    }
}

// Carries the six rows of a unit of the pair g, h over to the pair g2, h2, in place; a refusal leaves them as they are.
pub fn transfer(
    p: u64,
    g: &[u64],
    h: &[u64],
    g2: &[u64],
    h2: &[u64],
    rows: &mut [u16],
) -> Result<(), Fault>
    ensures { Transfers p (unpad g.now) (unpad h.now) (unpad g2.now) (unpad h2.now) rows.old (no_of result) rows.new }
{
    door_compare::refusal(p, g, h, g2, h2)?;
    let i = field_open::unpadded(g);
    let j = field_open::unpadded(h);
    let k = field_open::unpadded(g2);
    let l = field_open::unpadded(h2);
    carry_between(p, &g[..i], &h[..j], &g2[..k], &h2[..l], rows)
}
