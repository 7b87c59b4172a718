// Greatest common divisors of rows of 32 coefficients by Euclid. p is prime.
// Euclid works in two lent rows: the longer loses its leading term in place, so that no row is copied or exchanged.
#![tactic(auto)]

ghost use Rattle.std.specs.Prelude.{◌≡◌};
ghost use Rattle.poly_euclid.specs.Euclid.{GcdAsks, terms, Common, LoweredAsks, Lowered, Found};

use num_mod::Modulus;
use poly_cross::cross_in;
use poly_rows::{Row, size, size_from};

// x of n terms without its leading term, by y of m terms, which is no longer: y's leading coefficient times x, less what cancels. The terms left.
fn lowered(q: Modulus, x: &mut Row, n: usize, y: &Row, m: usize) -> usize
    requires { LoweredAsks q x.old n y.now m }
    ensures { Lowered q.p x.old n y.now m x.new result }
{
    let s = y[m - 1];
    let c = x[n - 1];
    cross_in(q, s, x, c, n - m, y, n);
    size_from(x, n - 1)
}

// Where Euclid ended: in which row the divisor is, and how many terms it has.
#[derive(Clone, Copy)]
pub enum Divisor {
    First(usize),
    Second(usize),
}

impl Divisor {
    pub fn terms(self) -> usize
        ensures { result ≡ terms self }
    {
        match self {
            Self::First(n) | Self::Second(n) => n,
        }
    }
}

// Euclid in two rows: the longer loses its leading term, until one is 0; the other is a greatest common divisor.
pub fn euclid(q: Modulus, x: &mut Row, y: &mut Row) -> Divisor
    requires { GcdAsks q x.old y.old }
    ensures { Found q.p x.old y.old x.new y.new result }
{
    let mut n = size(x);
    let mut m = size(y);
    // Two lengths fall in turn, and nothing is counted.
    while m > 0 {
        if n == 0 {
            return Divisor::Second(m);
        }
        if n < m {
            m = lowered(q, y, m, x, n);
        } else {
            n = lowered(q, x, n, y, m);
        }
    }
    Divisor::First(n)
}

// A greatest common divisor.
pub fn gcd(q: Modulus, a: &Row, b: &Row) -> Row
    requires { GcdAsks q a.now b.now }
    ensures { Common q.p a.now b.now result }
{
    let mut x = *a;
    let mut y = *b;
    match euclid(q, &mut x, &mut y) {
        Divisor::First(_) => x,
        Divisor::Second(_) => y,
    }
}
