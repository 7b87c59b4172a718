// Quotients and remainders of rows whose trimmed lengths are known, in lent rows. specs/Divide.antt has the contracts.
#![tactic(auto)]

ghost use Rattle.poly_lent.specs.Sized.{MixAsks};
ghost use Rattle.poly_divide.specs.Divide.{QuotientAsks, QuotientInGives, LessInGives, DivideInGives};

use num_mod::Modulus;
use poly_lent::mix_in;
use poly_rows::{Poly, Row, quotient_coefficient, size, size_from};

// The quotient of a by b from the top into the zero row r, and its length; il is the inverse of b's leading coefficient.
pub fn quotient_in(q: Modulus, a: Poly, b: Poly, il: u64, r: &mut Row) -> usize
    requires { QuotientAsks q a.row.now a.len b.row.now b.len il r.old }
    ensures { QuotientInGives q.p a.entry.row.now b.entry.row.now r.new result }
{
    let top = (a.len + 1).saturating_sub(b.len);
    for k in (0..top).rev() {
        r[k] = quotient_coefficient(q, a.row, r, b.row, b.len, il, top, k);
    }
    size_from(r, top)
}

// r - x y in place of r, and its length.
pub fn less_in(q: Modulus, x: Poly, y: Poly, r: &mut Row) -> usize
    requires { MixAsks q x.row.now x.len y.row.now y.len r.old }
    ensures { LessInGives q.p x.entry.row.now y.entry.row.now r.old r.new result }
{
    mix_in(q, true, x, y, r);
    size(r)
}

// The lengths of a quotient and of a remainder.
#[derive(Clone, Copy)]
pub struct Halves {
    pub q: usize,
    pub r: usize,
}

// The quotient of a by b into the zero row r, and the remainder in place of a, with their lengths.
// a and n are no Poly: a is changed in place.
pub fn divide_in(q: Modulus, a: &mut Row, n: usize, b: Poly, il: u64, r: &mut Row) -> Halves
    requires { QuotientAsks q a.old n b.row.now b.len il r.old }
    ensures { DivideInGives q.p a.old b.entry.row.now r.new a.new result.q result.r }
{
    let l = quotient_in(q, Poly { row: a, len: n }, b, il, r);
    let k = less_in(q, Poly { row: r, len: l }, b, a);
    Halves { q: l, r: k }
}
