// From a reduced pair to the scaled basis. specs/Based.antt has what it is.
#![tactic(auto)]

ghost use Rattle.basis_clear.specs.Clear.{pair};
ghost use Rattle.basis_reduce.specs.Reduction.{ends};
ghost use Rattle.basis_finish.specs.Based.{FinishedAsks, Finished};

use basis_parts::{Element, Frame};
use basis_store::{factors_of, filled};
use basis_top::lead_of;
use poly_cross::scale_in;
use poly_rows::{Poly, Row};

// The scaled basis from a reduced pair m, n on, with l the length of X(m): all rows are scaled in place.
// d, x1 and y1 stand beside their lengths, since they are changed in place.
pub fn finished(
    f: &Frame,
    top: usize,
    m: &mut Element,
    mx: &mut Row,
    n: &mut Element,
    nx: &mut Row,
    l: usize,
    d: &mut Row,
    lu: usize,
    x1: &mut Row,
    n1: usize,
    y1: &mut Row,
    n2: usize,
) -> [u16; 119]
    requires { FinishedAsks f.now top (ends m.old.b m.old.c mx.old n.old.b n.old.c nx.old l) d.old lu x1.old n1 y1.old n2 }
    ensures { Finished f.now top (ends m.old.b m.old.c mx.old n.old.b n.old.c nx.old l) d.old lu x1.old y1.old (pair m.new.b m.new.c n.new.b n.new.c) mx.new nx.new d.new x1.new y1.new result }
{
    let q = f.m;
    let b = lead_of(f, top, true, n);
    let k = factors_of(q.p, d[lu - 1], mx[l - 1], b);
    scale_in(q, k.u, d, lu);
    scale_in(q, 2, x1, n1);
    scale_in(q, 2, y1, n2);
    let x = Poly { row: x1, len: n1 };
    let y = Poly { row: y1, len: n2 };
    let u = Poly { row: d, len: lu };
    filled(q, top, k, m, mx, n, nx, x, y, u)
}
