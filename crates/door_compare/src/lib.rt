// Any two pairs of lists over one p: their refusals, and whether they are of one field.
#![tactic(auto)]

ghost use Rattle.base_answers.specs.Faults.{no_of};
ghost use Rattle.field_open.specs.Padding.{unpad};
ghost use Rattle.door_compare.specs.Answer.{Refusals, Compares, told};

use base_answers::Fault;

// The first pair's refusal, then the second's; none where both are accepted.
pub fn refusal(p: u64, g: &[u64], h: &[u64], g2: &[u64], h2: &[u64]) -> Result<(), Fault>
    ensures { Refusals p (unpad g.now) (unpad h.now) (unpad g2.now) (unpad h2.now) (no_of result) }
{
    field_open::refusal(p, g, h)?;
    field_open::refusal(p, g2, h2)
}

// Compares any two pairs: are they of one field?
pub fn compare(p: u64, g: &[u64], h: &[u64], g2: &[u64], h2: &[u64]) -> Result<bool, Fault>
    ensures { Compares p (unpad g.now) (unpad h.now) (unpad g2.now) (unpad h2.now) (told result) }
{
    refusal(p, g, h, g2, h2)?;
    let i = field_open::unpadded(g);
    let j = field_open::unpadded(h);
    let k = field_open::unpadded(g2);
    let l = field_open::unpadded(h2);
    Ok(pair_agree::one_field(p, &g[..i], &h[..j], &g2[..k], &h2[..l]))
}
