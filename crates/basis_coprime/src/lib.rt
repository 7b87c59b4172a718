// Refusal 9: whether seven rows are without a common factor. The test is two-sided. specs/Coprime.antt has what it decides, proofs/Coprime.antt that a
// chain of greatest common divisors decides it. Crate basis_accept has what it says of an ideal.
#![tactic(auto)]

ghost use Rattle.basis_coprime.specs.Coprime.{NoCommonFactorAsks, Alone};

use basis_record::Seven;
use num_mod::Modulus;
use poly_euclid::gcd;
use poly_rows::size;

// Whether no factor divides all seven: the length of their greatest common divisor.
pub fn no_common_factor(q: Modulus, rows: &Seven) -> bool
    requires { NoCommonFactorAsks q rows.now }
    ensures { Alone q.p rows.now result }
{
    let a = gcd(q, &rows.u, &rows.m0);
    let b = gcd(q, &a, &rows.m1);
    let c = gcd(q, &b, &rows.m2);
    let d = gcd(q, &c, &rows.n0);
    let e = gcd(q, &d, &rows.n1);
    let g = gcd(q, &e, &rows.n2);
    let n = size(&g);
    n == 1
}
