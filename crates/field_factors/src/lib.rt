// Refusals 7 and 8: which one, from the answers of the tests of crate poly_factors.
#![tactic(auto)]

ghost use Rattle.std.specs.Prelude.{◌≡◌};
ghost use Rattle.base_answers.specs.Faults.{no_of};
ghost use Rattle.field_factors.specs.Factors.{factor_number};

use base_answers::Fault;

// 7 comes before 8.
pub fn first_factor(free: bool, apart: bool) -> Result<(), Fault>
    ensures { no_of result ≡ factor_number free apart }
{
    if !free {
        return Err(Fault::HasSquare);
    }
    if !apart {
        return Err(Fault::HasCommon);
    }
    Ok(())
}
