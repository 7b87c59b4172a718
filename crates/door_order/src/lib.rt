// The basis of the order, with all refusals. specs/Answer.antt has the contract.
#![tactic(auto)]

ghost use Rattle.field_open.specs.Padding.{unpad};
ghost use Rattle.door_order.specs.Answer.{Orders, told};

use base_answers::Fault;

// The basis of the order of the field p, G, H.
pub fn order(p: u64, g: &[u64], h: &[u64]) -> Result<[u16; 119], Fault>
    ensures { Orders p (unpad g.now) (unpad h.now) (told result) }
{
    let c = field_series::open_with_series(p, g, h)?;
    Ok(basis_field::order_basis(c))
}
