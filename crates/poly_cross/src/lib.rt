// Rows of crate poly_rows turned in place: multiplied by a number, or crossed with another row.
#![tactic(auto)]

ghost use Rattle.std.specs.Prelude.{◌≡◌, ◌+◌, ◌*◌, ◌-◌, ◌%◌, ◌<◌, ◌≤◌};
ghost use Rattle.math_rows.specs.Row.{shift_at};
ghost use Rattle.poly_cross.specs.Cross.{ScaleInAsks, ScaleInGives, CrossInAsks, CrossInGives};

use num_mod::{Modulus, reduce};
use poly_rows::Row;

// c x in place of x, which ends before n; x is changed, so that the two are no `Poly`.
pub fn scale_in(q: Modulus, c: u64, x: &mut Row, n: usize)
    requires { ScaleInAsks q c x.old n }
    ensures { ScaleInGives q.p c x.old n x.new }
{
    for i in 0..n {
        x[i] = reduce(q, c * x[i]);
    }
}

// The coefficient of t^k y at i.
fn shifted(y: &Row, k: usize, i: usize) -> u64
    requires { i < 32 }
    ensures { result ≡ shift_at y.now k i }
{
    if i < k { 0 } else { y[i - k] }
}

// s x - c t^k y, of n terms, in place of x.
pub fn cross_in(q: Modulus, s: u64, x: &mut Row, c: u64, k: usize, y: &Row, n: usize)
    requires { CrossInAsks q s x.old c k y.now n }
    ensures { CrossInGives q.p s x.old c k y.now n x.new }
{
    let d = q.p - c;
    for i in 0..n {
        let z = shifted(y, k, i);
        x[i] = reduce(q, s * x[i] + d * z);
    }
}
