// An opened field with the first coefficients of its series, as the reduction and the theory take it: proofs/Keeps.antt and proofs/Ground.antt. What stands here
// asks for such a field; the doors, which open it, are in the door_ crates.
#![tactic(auto)]

ghost use Rattle.field_series.specs.Keeps.{Known};
ghost use Rattle.basis_field.specs.First.{First};

// The basis of the order of an opened field. A frame of its own bounds the stack.
#[inline(never)]
pub fn order_basis(c: field_series::OpenedField) -> [u16; 119]
    requires { Known c }
    ensures { First c result }
{
    let k = c.field;
    let r = c.r;
    let w = c.w;
    let f = basis_parts::Frame {
        m: num_mod::prepare(k.p),
        r,
        w,
        dr: k.dr,
        dw: k.dw,
    };
    basis_scale::order(&f, k.dr + k.dw + 1)
}
