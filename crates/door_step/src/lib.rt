// The step from a record, with all its refusals. specs/Answer.antt has the contract.
#![tactic(auto)]

ghost use Rattle.field_open.specs.Padding.{unpad};
ghost use Rattle.door_step.specs.Answer.{Answers, told};

use base_answers::Fault;
use basis_accept::accepts;
use step_next::{StepTaken, step_in_field};

// The step from a record: the refusals 1 to 8, then 9, else the next record and the degree of the m divided by.
pub fn step(p: u64, g: &[u64], h: &[u64], rows: [u16; 119]) -> Result<StepTaken, Fault>
    ensures { Answers p (unpad g.now) (unpad h.now) rows (told result) }
{
    let c = field_series::open_with_series(p, g, h)?;
    if accepts(c, rows) {
        Ok(step_in_field(c, rows))
    } else {
        Err(Fault::NotBasis)
    }
}
