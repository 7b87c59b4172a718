// The public walk from a record, with all refusals; its contract is `Walks` of crate walk_chain.
#![tactic(auto)]

ghost use Rattle.field_open.specs.Padding.{unpad};
ghost use Rattle.walk_chain.specs.Told.{told, TenEnds};
ghost use Rattle.walk_chain.specs.Walk.{Walks};

use base_answers::{Fault, over_budget};
use basis_accept::accepts;
use walk_chain::{Walked, walk_in_field};

// The walk from a record: at most `budget` steps, until U = 1 after at least one.
pub fn walk(p: u64, g: &[u64], h: &[u64], rows: [u16; 119], budget: u64) -> Result<Walked, Fault>
    ensures walks { Walks p (unpad g.now) (unpad h.now) budget rows (told result) }
    ensures ten { TenEnds result }
{
    let c = field_series::open_with_series(p, g, h)?;
    if over_budget(budget) {
        return Err(Fault::OutOfRule);
    }
    if accepts(c, rows) {
        Ok(walk_in_field(c, rows, budget))
    } else {
        Err(Fault::NotBasis)
    }
}
