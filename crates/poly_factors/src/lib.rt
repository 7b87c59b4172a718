// The tests that a greatest common divisor of rows of 32 coefficients decides: squarefree, coprime. p is prime.
#![tactic(auto)]

ghost use Rattle.poly_rows.specs.Leaf.{Given};
ghost use Rattle.poly_factors.specs.Factors.{DeriveAsks, Derived, OverBoth, SquareTest, FreeTest, CoprimeTest};

use num_mod::prepare;
use poly_euclid::euclid;
use poly_rows::{Row, size};

// d/dt in place of the zero row d.
fn derive(p: u64, x: &Row, d: &mut Row)
    requires { DeriveAsks p x.now d.old }
    ensures { Derived p x.now d.new }
{
    for i in 0..size(x).saturating_sub(1) {
        d[i] = ((i + 1) as u64) * x[i + 1] % p;
    }
}

// Whether no square of a polynomial that is not constant divides x: whether x is coprime to its derivative, which is 0 for a p-th power.
pub fn squarefree(p: u64, x: &Row) -> bool
    requires { Given p x.now }
    ensures { SquareTest p x.now result }
{
    let q = prepare(p);
    let mut a = *x;
    let mut b: Row = [0; 32];
    derive(p, x, &mut b);
    euclid(q, &mut a, &mut b).terms() == 1
}

// Whether neither row has a square factor.
pub fn both_free(p: u64, x: &Row, y: &Row) -> bool
    requires { OverBoth p x.now y.now }
    ensures { FreeTest p x.now y.now result }
{
    squarefree(p, x) && squarefree(p, y)
}

// Whether no polynomial that is not constant divides both.
pub fn coprime(p: u64, x: &Row, y: &Row) -> bool
    requires { OverBoth p x.now y.now }
    ensures { CoprimeTest p x.now y.now result }
{
    let q = prepare(p);
    let mut a = *x;
    let mut b = *y;
    euclid(q, &mut a, &mut b).terms() == 1
}
