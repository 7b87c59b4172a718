// Quotients of long polynomials (crate poly_long), each coefficient from a sum of crate poly_mix. specs/Quotients.antt has the contracts.
#![tactic(auto)]

ghost use Rattle.poly_quotient.specs.Quotients.{DigitAsks, Digit, QuotientAsks, Quotient};

use poly_mix::sum_at;

// The coefficient k of (a x + b y + c z) / u, where u is monic and q holds the coefficients above k.
fn digit(
    p: u64,
    a: &[u16],
    x: &[u16],
    b: &[u16],
    y: &[u16],
    c: &[u16],
    z: &[u16],
    u: &[u16],
    q: &[u16],
    k: usize,
) -> u64
    requires { DigitAsks p a.now b.now c.now u.now k }
    ensures { Digit p a.now x.now b.now y.now c.now z.now u.now q.now k result }
{
    let m = u.len() - 1;
    let s = sum_at(a, a.len(), x, k + m);
    let t = sum_at(b, b.len(), y, k + m);
    let v = sum_at(c, c.len(), z, k + m);
    let w = sum_at(u, m, q, k + m) % p;
    (s + t + v + (p - w)) % p
}

// (a x + b y + c z) / u, top-down, where u is monic and divides.
pub fn quotient(
    p: u64,
    a: &[u16],
    x: &[u16],
    b: &[u16],
    y: &[u16],
    c: &[u16],
    z: &[u16],
    u: &[u16],
    q: &mut [u16],
)
    requires { QuotientAsks p a.now b.now c.now u.now q.old }
    ensures { Quotient p a.now x.now b.now y.now c.now z.now u.now q.old q.new }
{
    for k in (0..q.len()).rev() {
        q[k] = digit(p, a, x, b, y, c, z, u, q, k) as u16;
    }
}
