// The first half of the step: from the record to the generators of the ideal divided by m.
#![tactic(auto)]

ghost use Rattle.std.specs.Prelude.{◌+◌};
ghost use Rattle.basis_record.specs.Seven.{three};
ghost use Rattle.step_divide.specs.Generated.{generators};
ghost use Rattle.step_part.specs.Parting.{PartedAsks, Parting};

use basis_parts::Element;
use basis_record::unpacked;
use num_mod::Modulus;
use poly_rows::{Poly, Row};
use step_divide::next_generators;

// The degree of m, the degree of what the generators had in common, and the lengths of x1, y1 and of the denominator.
#[derive(Clone, Copy)]
pub struct Measures {
    pub degree: usize,
    pub cut: usize,
    pub x: usize,
    pub y: usize,
    pub d: usize,
}

// The generators of the ideal divided by m, into two elements and three rows of zeros. The rows of the record end before dr + dw + 1, which is the
// length of G H. The lengths of G and H follow from the degrees of r and w: these are (deg G + 2 deg H)/3 and (2 deg G + deg H)/3. A frame of
// its own bounds the stack.
#[inline(never)]
pub fn parted(
    q: Modulus,
    g: &Row,
    h: &Row,
    gh: &Row,
    dr: usize,
    dw: usize,
    b: &[u16; 119],
    m: &mut Element,
    n: &mut Element,
    x: &mut Row,
    y: &mut Row,
    d: &mut Row,
) -> Measures
    requires { PartedAsks q g.now h.now gh.now (dr + dw) dr dw b.now (three n.old.c x.old m.old.c) (three n.old.b y.old m.old.b) d.old }
    ensures { Parting q.p g.now h.now gh.now b.now (generators x.new y.new m.new.b m.new.c n.new.b n.new.c d.new result.cut) result }
{
    let rows = unpacked(b);
    let top = dr + dw;
    let lg = 2 * dw + 1 - dr;
    let lh = 2 * dr + 1 - dw;
    let lk = top + 1;
    let g = Poly { row: g, len: lg };
    let h = Poly { row: h, len: lh };
    let xy = Poly { row: gh, len: lk };
    let k = next_generators(q, g, h, xy, q.p - gh[top], &rows, m, n, x, y, d);
    Measures {
        degree: k.m0 - k.u,
        cut: k.cut,
        x: k.x,
        y: k.y,
        d: k.d,
    }
}
