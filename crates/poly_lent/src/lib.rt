// Products of rows whose trimmed lengths are known, into lent rows: sums by crate poly_sums, each reduced once. specs/Sized.antt has the
// contracts.
#![tactic(auto)]

ghost use Rattle.poly_lent.specs.Sized.{ReachAsks, Reach, MixAsks, Mixed, BothInAsks, BothInGives, TimesInAsks, TimesInGives, DetInAsks, DetInGives};

use num_mod::Modulus;
use poly_rows::{Poly, Row, size_from};
use poly_sums::{gather, settle};

// Where products whose factors have a and b coefficients together have ended.
fn reach(a: usize, b: usize) -> usize
    requires { ReachAsks a b }
    ensures { Reach a b result }
{
    a.max(b).saturating_sub(1)
}

// r + x y, or r - x y, in place of r.
pub fn mix_in(q: Modulus, minus: bool, x: Poly, y: Poly, r: &mut Row)
    requires { MixAsks q x.row.now x.len y.row.now y.len r.old }
    ensures { Mixed q.p minus x.entry.row.now x.entry.len y.entry.row.now y.entry.len r.old r.new }
{
    gather(q.p, minus, x, y, r);
    let t = reach(x.len + y.len, 0);
    settle(q, r, t);
}

// r ± x y ± z v in place of r, and its length: x y is taken off where minus is true, z v where less is. r ends before l.
pub fn both_in(
    q: Modulus,
    minus: bool,
    x: Poly,
    y: Poly,
    less: bool,
    z: Poly,
    v: Poly,
    r: &mut Row,
    l: usize,
) -> usize
    requires { BothInAsks q x.row.now x.len y.row.now y.len z.row.now z.len v.row.now v.len r.old l }
    ensures { BothInGives q.p minus x.entry.row.now y.entry.row.now less z.entry.row.now v.entry.row.now r.old r.new result }
{
    gather(q.p, minus, x, y, r);
    gather(q.p, less, z, v, r);
    let s = reach(x.len + y.len, z.len + v.len);
    let t = reach(s + 1, l + 1);
    settle(q, r, t);
    size_from(r, t)
}

// x y into the zero row r; its length.
pub fn times_in(q: Modulus, x: Poly, y: Poly, r: &mut Row) -> usize
    requires { TimesInAsks q x.row.now x.len y.row.now y.len r.old }
    ensures { TimesInGives q.p x.entry.row.now y.entry.row.now r.new result }
{
    mix_in(q, false, x, y, r);
    let t = reach(x.len + y.len, 0);
    size_from(r, t)
}

// x y - z v into the zero row r; its length.
pub fn det_in(q: Modulus, x: Poly, y: Poly, z: Poly, v: Poly, r: &mut Row) -> usize
    requires { DetInAsks q x.row.now x.len y.row.now y.len z.row.now z.len v.row.now v.len r.old }
    ensures { DetInGives q.p x.entry.row.now y.entry.row.now z.entry.row.now v.entry.row.now r.new result }
{
    both_in(q, false, x, y, true, z, v, r, 0)
}
