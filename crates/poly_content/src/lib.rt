// Four polynomials and their determinant without what the four have in common, in place.
#![tactic(auto)]

ghost use Rattle.poly_content.specs.Common.{ContentAsks, Content, four, ShortenAsks, Shortened, WithoutContentAsks, Taken};

use num_mod::Modulus;
use num_power::inverse;
use poly_divide::quotient_in;
use poly_euclid::gcd;
use poly_lent::det_in;
use poly_rows::{Poly, Row, size};

// A greatest common divisor of four. Usually the first two have none, and it ends there.
fn content(q: Modulus, x0: &Row, x2: &Row, y0: &Row, y2: &Row) -> Row
    requires { ContentAsks q x0.now x2.now y0.now y2.now }
    ensures { Content q.p x0.now x2.now y0.now y2.now result }
{
    let g = gcd(q, x2, y2);
    let n = size(&g);
    if n == 1 {
        g
    } else {
        let h = gcd(q, &g, y0);
        gcd(q, &h, x0)
    }
}

// x / k in place of x, where k divides x, and its length; x ends before n.
// x and n are no Poly: x is changed in place.
fn shorten(q: Modulus, x: &mut Row, n: usize, k: Poly, il: u64) -> usize
    requires { ShortenAsks q x.old n k.row.now k.len il }
    ensures { Shortened q.p x.old k.entry.row.now x.new result }
{
    let mut t: Row = [0; 32];
    let l = quotient_in(q, Poly { row: x, len: n }, k, il, &mut t);
    *x = t;
    l
}

// The degree of what was taken off, and the length of the determinant.
#[derive(Clone, Copy)]
pub struct Off {
    pub cut: usize,
    pub d: usize,
}

// Four polynomials of known lengths, and their determinant x2 y0 - x0 y2 in the zero row d, without their common factor.
// Each row stands beside its length, since it is changed in place.
pub fn without_content(
    q: Modulus,
    x0: &mut Row,
    a0: usize,
    x2: &mut Row,
    a2: usize,
    y0: &mut Row,
    b0: usize,
    y2: &mut Row,
    b2: usize,
    d: &mut Row,
) -> Off
    requires { WithoutContentAsks q x0.old a0 x2.old a2 y0.old b0 y2.old b2 d.old }
    ensures { Taken q.p x0.old x2.old y0.old y2.old (four x0.new x2.new y0.new y2.new d.new result.cut) result.d }
{
    let k = content(q, x0, x2, y0, y2);
    let l = det_in(
        q,
        Poly { row: x2, len: a2 },
        Poly { row: y0, len: b0 },
        Poly { row: x0, len: a0 },
        Poly { row: y2, len: b2 },
        d,
    );
    let m = size(&k);
    if m == 1 {
        Off { cut: 0, d: l }
    } else {
        let c = k[m - 1];
        let il = inverse(q.p, c);
        let by = Poly { row: &k, len: m };
        shorten(q, x0, a0, by, il);
        shorten(q, x2, a2, by, il);
        shorten(q, y0, b0, by, il);
        shorten(q, y2, b2, by, il);
        let n = shorten(q, d, l, by, il);
        Off { cut: m - 1, d: n }
    }
}
