// The basis record: seven rows of 17 coefficients, M0, M1, M2, N0, N1, N2, U. It starts as zeros and is filled row by row.
#![tactic(auto)]

ghost use Rattle.std.specs.Prelude.{◌+◌, ◌*◌, ◌-◌, ◌%◌, ◌<◌, ◌≤◌};
ghost use Rattle.basis_clear.specs.Clear.{pair};
ghost use Rattle.basis_store.specs.Levels.{RowZeroAsks, Leveled};
ghost use Rattle.basis_store.specs.Place.{StoreElementAsks, Placed, FilledAsks, Filled};
ghost use Rattle.basis_store.specs.Scales.{FactorsOfAsks, Scaling};

use basis_parts::Element;
use basis_record::stored;
use num_mod::Modulus;
use num_power::inverse;
use poly_cross::{cross_in, scale_in};
use poly_divide::quotient_in;
use poly_lent::{both_in, mix_in};
use poly_rows::{Poly, Row, size_from};

// Row 0 of an element over the denominator u, which leads with 1: half of x - (k mod u), in place of x
// k and n are no Poly: k is changed in place.
fn row_zero(q: Modulus, u: Poly, k: &mut Row, n: usize, x: &mut Row, top: usize)
    requires { RowZeroAsks q u.row.now u.len k.old n x.old top }
    ensures { Leveled q.p u.entry.row.now k.old x.old top x.new }
{
    let mut d: Row = [0; 32];
    let l = quotient_in(q, Poly { row: k, len: n }, u, 1, &mut d);
    mix_in(q, true, Poly { row: &d, len: l }, u, k);
    let h = (q.p + 1) / 2;
    cross_in(q, h, x, h, 0, k, top);
}

// The factors by which U, m and n are scaled
#[derive(Clone, Copy)]
pub struct Factors {
    pub u: u64,
    pub m: u64,
    pub n: u64,
}

// 1 / a, 2 / b and 1 / c, by one inversion
pub fn factors_of(p: u64, a: u64, b: u64, c: u64) -> Factors
    requires { FactorsOfAsks p a b c }
    ensures { Scaling p a b c result }
{
    let ab = a * b % p;
    let i = inverse(p, ab * c % p);
    let j = i * c % p;
    Factors {
        u: j * b % p,
        m: 2 * (j * a % p) % p,
        n: i * ab % p,
    }
}

// Rows i, i + 1, i + 2 of the record: the element s a over u, x the polynomial part of a's size. The rows are scaled in place, and x1 and y1 are twice what settles row 0.
fn store_element(
    rows: &mut [u16; 119],
    i: usize,
    q: Modulus,
    top: usize,
    s: u64,
    a: &mut Element,
    x: &mut Row,
    x1: Poly,
    y1: Poly,
    u: Poly,
)
    requires { StoreElementAsks q i top s a.old.b a.old.c x.old x1.row.now x1.len y1.row.now y1.len u.row.now u.len rows.old }
    ensures { Placed q.p i s a.old.b a.old.c x.old x1.entry.row.now y1.entry.row.now u.entry.row.now rows.old a.new.b a.new.c x.new rows.new }
{
    scale_in(q, s, &mut a.b, top);
    scale_in(q, s, &mut a.c, top);
    scale_in(q, s, x, top);
    let nb = size_from(&a.b, top);
    let nc = size_from(&a.c, top);
    let b = Poly { row: &a.b, len: nb };
    let c = Poly { row: &a.c, len: nc };
    let mut k = *x;
    let n = both_in(q, false, b, x1, false, c, y1, &mut k, top);
    row_zero(q, u, &mut k, n, x, top);
    stored(rows, i, x, top);
    stored(rows, i + 1, &a.b, top);
    stored(rows, i + 2, &a.c, top);
}

// The record of the elements m and n, scaled by the factors of k, over u
pub fn filled(
    q: Modulus,
    top: usize,
    k: Factors,
    m: &mut Element,
    mx: &mut Row,
    n: &mut Element,
    nx: &mut Row,
    x1: Poly,
    y1: Poly,
    u: Poly,
) -> [u16; 119]
    requires { FilledAsks q top k m.old.b m.old.c mx.old n.old.b n.old.c nx.old x1.row.now x1.len y1.row.now y1.len u.row.now u.len }
    ensures { Filled q.p k m.old.b m.old.c mx.old n.old.b n.old.c nx.old x1.entry.row.now y1.entry.row.now u.entry.row.now (pair m.new.b m.new.c n.new.b n.new.c) mx.new nx.new result }
{
    let mut rows: [u16; 119] = [0; 119];
    store_element(&mut rows, 0, q, top, k.m, m, mx, x1, y1, u);
    store_element(&mut rows, 3, q, top, k.n, n, nx, x1, y1, u);
    stored(&mut rows, 6, u.row, u.len);
    rows
}
