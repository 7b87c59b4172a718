// The rows F0, F1, F2 of the inverse, after those of E in the lent slice of crate unit_rows.
#![tactic(auto)]

ghost use Rattle.unit_inverse.specs.Inverse.{PairAsks, Pair, CofactorAsks, Cofactor, NormAsks, Norm, InvertAsks, Inverted};

use base_lists::wide;
use num_power::inverse;
use poly_long::{clear, scale};
use poly_mix::mix;

// The low k coefficients of the products of the rows at x and y and of those at v and w, one after the other.
fn pair(
    p: u64,
    c: usize,
    k: usize,
    x: usize,
    y: usize,
    v: usize,
    w: usize,
    rows: &[u16],
    s: &mut [u16],
)
    requires { PairAsks p c k x y v w rows.now s.old }
    ensures { Pair p c k x y v w rows.now s.old s.new }
{
    let o: [u16; 1] = [0; 1];
    mix(p, &rows[x..x + c], &rows[y..y + c], &o, &o, &mut s[0..k]);
    mix(
        p,
        &rows[v..v + c],
        &rows[w..w + c],
        &o,
        &o,
        &mut s[k..k + k],
    );
}

// The low k coefficients of g x y + f v w, into the row at place at.
fn cofactor(
    p: u64,
    c: usize,
    k: usize,
    x: usize,
    y: usize,
    v: usize,
    w: usize,
    g: &[u16],
    f: &[u16],
    at: usize,
    rows: &mut [u16],
    s: &mut [u16],
)
    requires { CofactorAsks p c k x y v w g.now f.now at rows.old s.old }
    ensures { Cofactor p c k x y v w g.now f.now at rows.old s.old rows.new s.new }
{
    pair(p, c, k, x, y, v, w, rows, s);
    mix(p, g, &s[0..k], f, &s[k..k + k], &mut rows[at..at + k]);
}

// The constant coefficient of E0 C0 + G H (E1 C2 + E2 C1), where C stands after E.
fn norm(p: u64, c: usize, gh: &[u16], rows: &[u16]) -> u64
    requires { NormAsks p c gh.now rows.now }
    ensures { Norm p c gh.now rows.now result }
{
    let c2 = c + c;
    let c3 = c2 + c;
    let c4 = c3 + c;
    let c5 = c4 + c;
    let mut a: [u16; 1] = [0; 1];
    mix(
        p,
        &rows[c..c2],
        &rows[c5..c5 + c],
        &rows[c2..c3],
        &rows[c4..c5],
        &mut a,
    );
    let mut b: [u16; 1] = [0; 1];
    mix(p, gh, &a, &rows[0..c], &rows[c3..c4], &mut b);
    wide(b[0])
}

// F = cof(E)/N(E) after the rows of E, from the low k coefficients of the cofactor. ngh is - G H. The scratch is blank after.
pub fn invert(
    p: u64,
    c: usize,
    k: usize,
    g: &[u16],
    h: &[u16],
    gh: &[u16],
    ngh: &[u16],
    rows: &mut [u16],
    s: &mut [u16],
)
    requires { InvertAsks p c k g.now h.now gh.now ngh.now rows.old s.old }
    ensures { Inverted p c g.now h.now rows.old s.old rows.new s.new }
{
    let one: [u16; 1] = [1; 1];
    let v = (p - 1) as u16;
    let less: [u16; 1] = [v; 1];
    let c2 = c + c;
    let c3 = c2 + c;
    let c4 = c3 + c;
    let c5 = c4 + c;
    let c6 = c5 + c;
    cofactor(p, c, k, c, c2, 0, 0, ngh, &one, c3, rows, s);
    cofactor(p, c, k, c2, c2, 0, c, g, &less, c4, rows, s);
    cofactor(p, c, k, c, c, 0, c2, h, &less, c5, rows, s);
    let q = inverse(p, norm(p, c, gh, rows));
    scale(p, q, &mut rows[c3..c6]);
    clear(s);
}
