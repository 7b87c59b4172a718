// The walk from the order, with all refusals: period and regulator of a field. specs/Order.antt has the contract.
#![tactic(auto)]

ghost use Rattle.field_open.specs.Padding.{unpad};
ghost use Rattle.door_period.specs.Order.{FromOrder, told};

use base_answers::{Cycle, Fault, Period, Regulator, over_budget};
use walk_chain::{End, walk_in_field};

// Period and regulator of the field p, G, H, by a walk of at most `budget` steps from the order.
pub fn from_order(p: u64, g: &[u64], h: &[u64], budget: u64) -> Result<Cycle, Fault>
    ensures { FromOrder p (unpad g.now) (unpad h.now) budget (told result) }
{
    let c = field_series::open_with_series(p, g, h)?;
    if over_budget(budget) {
        return Err(Fault::OutOfRule);
    }
    let b = basis_field::order_basis(c);
    let o = walk_in_field(c, b, budget);
    match o.end {
        End::Closed => Ok(Cycle {
            period: Period(o.steps),
            regulator: Regulator(o.sum / 2),
        }),
        End::Spent => Err(Fault::NotClosing),
    }
}
