// The scaled basis that the reduction of two elements gives, and the basis of the order.
#![tactic(auto)]

ghost use Rattle.basis_clear.specs.Clear.{pair};
ghost use Rattle.basis_finish.specs.Based.{ReducedBasisAsks, Based};
ghost use Rattle.basis_scale.specs.Gives.{ReducedBasisGives};
ghost use Rattle.basis_scale.specs.First.{OrderAsks, units, unit, nothing};

use basis_finish::finished;
use basis_parts::{Element, Frame};
use basis_reduce::reduced;
use poly_rows::Row;

// The scaled basis of the lattice of 1 and of the elements over m, n by the denominator d. What it leaves in the lent rows is `Left` of crate
// basis_finish, specs/Based.antt.
pub fn reduced_basis(
    f: &Frame,
    top: usize,
    m: &mut Element,
    n: &mut Element,
    d: &mut Row,
    lu: usize,
    x1: &mut Row,
    n1: usize,
    y1: &mut Row,
    n2: usize,
) -> [u16; 119]
    requires { ReducedBasisAsks f.now (pair m.old.b m.old.c n.old.b n.old.c) top d.old lu x1.old n1 y1.old n2 }
    ensures { ReducedBasisGives f.now (pair m.old.b m.old.c n.old.b n.old.c) d.old x1.old y1.old (pair m.new.b m.new.c n.new.b n.new.c) d.new x1.new y1.new result }
{
    let mut mx: Row = [0; 32];
    let mut nx: Row = [0; 32];
    let o = reduced(f, top, m, &mut mx, n, &mut nx, lu);
    // places are exchanged by the order of the arguments: a swap of the elements would copy their rows
    if o.swap {
        finished(f, top, n, &mut nx, m, &mut mx, o.l, d, lu, x1, n1, y1, n2)
    } else {
        finished(f, top, m, &mut mx, n, &mut nx, o.l, d, lu, x1, n1, y1, n2)
    }
}

// The basis of the order: from the elements r and w, with the denominator 1
pub fn order(f: &Frame, top: usize) -> [u16; 119]
    requires { OrderAsks f.now top }
    ensures { Based f.now units unit nothing nothing result }
{
    let zero: Row = [0; 32];
    let mut one = zero;
    one[0] = 1;
    let mut m = Element { b: one, c: zero };
    let mut n = Element { b: zero, c: one };
    let mut d = one;
    let mut x1 = zero;
    let mut y1 = zero;
    reduced_basis(f, top, &mut m, &mut n, &mut d, 1, &mut x1, 0, &mut y1, 0)
}
