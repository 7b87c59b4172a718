// The reduction of two elements b r + c w to a reduced pair, on rows as in crate basis_clear, which has its first half.
#![tactic(auto)]

ghost use Rattle.basis_clear.specs.Clear.{ClearYAsks, pair};
ghost use Rattle.basis_reduce.specs.Reduction.{ShearAsks, Sheared, Reduced, ends, ends_if};

use basis_clear::{canceled, clear_y};
use basis_parts::{Element, Frame, floor_in};
use basis_top::{Top, top_of};
use poly_rows::{Row, size_from};

// After `clear_y`, leading terms of n's X are canceled until it lies below m's; the length of m's. The polynomial parts of X go into mx and nx.
fn clear_x(f: &Frame, top: usize, m: &Element, mx: &mut Row, n: &mut Element, nx: &mut Row) -> usize
    requires { ShearAsks f.now (pair m.now.b m.now.c n.old.b n.old.c) top }
    ensures { Sheared f.now (pair m.now.b m.now.c n.old.b n.old.c) top (ends m.now.b m.now.c mx.new n.new.b n.new.c nx.new result) }
{
    floor_in(f, top, false, &m.b, &m.c, mx);
    let l = size_from(mx, top);
    let low = l - 1;
    let x1 = Top { n: l, c: mx[low] };
    let mut x2 = top_of(f, top, false, n, top, low);
    // Runs while a length is too long, and counts nothing.
    while l <= x2.n {
        x2 = canceled(f, top, false, n, x2, m, x1, low);
    }
    floor_in(f, top, false, &n.b, &n.c, nx);
    l
}

// Whether m and n have changed places, and the length of X(m)
#[derive(Clone, Copy)]
pub struct Ended {
    pub swap: bool,
    pub l: usize,
}

// A pair with the same span in place of m and n, deg X(n) < deg X(m) and deg Y(m) < lu - 1 <= deg Y(n), with the polynomial parts of X in mx and nx.
// Where the answer says so, m stands in the rows of n and n in those of m.
pub fn reduced(
    f: &Frame,
    top: usize,
    m: &mut Element,
    mx: &mut Row,
    n: &mut Element,
    nx: &mut Row,
    lu: usize,
) -> Ended
    requires { ClearYAsks f.now (pair m.old.b m.old.c n.old.b n.old.c) top lu }
    ensures { Reduced f.now (pair m.old.b m.old.c n.old.b n.old.c) top lu (ends_if result.swap (ends m.new.b m.new.c mx.new n.new.b n.new.c nx.new result.l)) }
{
    let swap = clear_y(f, top, m, n, lu);
    if swap {
        let l = clear_x(f, top, n, nx, m, mx);
        Ended { swap: true, l }
    } else {
        let l = clear_x(f, top, m, mx, n, nx);
        Ended { swap: false, l }
    }
}
