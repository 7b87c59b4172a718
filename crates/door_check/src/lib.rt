// The check of 119 numbers, with all refusals. specs/Answer.antt has the contract.
#![tactic(auto)]

ghost use Rattle.base_answers.specs.Faults.{no_of};
ghost use Rattle.field_open.specs.Padding.{unpad};
ghost use Rattle.door_check.specs.Answer.{Checks};

use base_answers::Fault;

// The refusal of 119 numbers as a record of the field p, G, H: 1 to 8, then 9; none for a record.
pub fn check(p: u64, g: &[u64], h: &[u64], rows: [u16; 119]) -> Result<(), Fault>
    ensures { Checks p (unpad g.now) (unpad h.now) rows (no_of result) }
{
    let c = field_series::open_with_series(p, g, h)?;
    if basis_accept::accepts(c, rows) {
        Ok(())
    } else {
        Err(Fault::NotBasis)
    }
}
