// Whether six rows hold a unit of positive degree with its inverse. specs/Check.antt says what is asked and answered, specs/Code.antt what the
// parts do.
//
// No buffer is lent for the work, so products stand in arrays of their greatest lengths; of these only as much is used as the rows ask for.
#![tactic(auto)]

ghost use Rattle.unit_check.specs.Check.{IsUnitAsks, IsUnitGives};
ghost use Rattle.unit_check.specs.Code.{CoordinateAsks, CoordinateGives, ProductAsks, ProductGives, IsInverseGives};

use field_series::OpenedField;
use poly_long::to_stored;
use poly_mix::mix;
use poly_products::times;
use poly_tests::{below, constant, longer};

// Is u (x y + z w) + v m n the constant k? The six rows have c numbers.
fn coordinate(
    p: u64,
    c: usize,
    x: &[u16],
    y: &[u16],
    z: &[u16],
    w: &[u16],
    u: &[u16],
    m: &[u16],
    n: &[u16],
    v: &[u16],
    k: u16,
) -> bool
    requires { CoordinateAsks p c x.now y.now z.now w.now u.now m.now n.now v.now k }
    ensures { CoordinateGives p x.now y.now z.now w.now u.now m.now
        n.now v.now k result }
{
    let j = c + c;
    let l = j + 32;
    let mut a: [u16; 8192] = [0; 8192];
    mix(p, x, y, z, w, &mut a[0..j]);
    let mut b: [u16; 8192] = [0; 8192];
    times(p, m, n, &mut b[0..j]);
    let mut d: [u16; 8224] = [0; 8224];
    mix(p, u, &a[0..j], v, &b[0..j], &mut d[0..l]);
    constant(k, &d[0..l])
}

// Is the product of the element in the first three rows and the one in the last three 1? gh is g h.
fn product_is_one(p: u64, c: usize, g: &[u16], h: &[u16], gh: &[u16], rows: &[u16]) -> bool
    requires { ProductAsks p c g.now h.now gh.now rows.now }
    ensures { ProductGives p c g.now h.now rows.now result }
{
    let one: [u16; 1] = [1; 1];
    let c2 = c + c;
    let c3 = c2 + c;
    let c4 = c3 + c;
    let c5 = c4 + c;
    let c6 = c5 + c;
    let e0 = &rows[0..c];
    let e1 = &rows[c..c2];
    let e2 = &rows[c2..c3];
    let f0 = &rows[c3..c4];
    let f1 = &rows[c4..c5];
    let f2 = &rows[c5..c6];
    coordinate(p, c, e1, f2, e2, f1, gh, e0, f0, &one, 1)
        && coordinate(p, c, e0, f1, e1, f0, &one, e2, f2, g, 0)
        && coordinate(p, c, e0, f2, e2, f0, &one, e1, f1, h, 0)
}

// Do the last three rows hold the inverse of the element in the first three?
fn is_inverse(f: OpenedField, c: usize, rows: &[u16]) -> bool
    requires { IsUnitAsks f c rows.now }
    ensures { IsInverseGives f c rows.now result }
{
    let q = f.field;
    let g = to_stored(&q.g);
    let h = to_stored(&q.h);
    let gh = to_stored(&q.gh);
    product_is_one(q.p, c, &g, &h, &gh, rows)
}

// Do the rows hold a unit of positive degree and its inverse?
pub fn is_unit(f: OpenedField, c: usize, rows: &[u16]) -> bool
    requires { IsUnitAsks f c rows.now }
    ensures { IsUnitGives f c rows.now result }
{
    let q = f.field;
    let c3 = c + c + c;
    below(q.p, rows) && is_inverse(f, c, rows) && longer(&rows[0..c], &rows[c3..c3 + c])
}
