// Sums of products of long polynomials (crate poly_long), up to 65,536 coefficients. A sum of 65,536 products of stored coefficients fits
// 64 bits, so each coefficient handed out costs one remainder. specs/Mixing.antt has the contracts.
#![tactic(auto)]

ghost use Rattle.poly_mix.specs.Mixing.{SumAtAsks, SumAt, MixAsks, Mixed};

use poly_long::size;

// The first n terms of coefficient k of x y.
pub fn sum_at(x: &[u16], n: usize, y: &[u16], k: usize) -> u64
    requires { SumAtAsks x.now n k }
    ensures { SumAt x.now n y.now k result }
{
    // tests in place of `saturating_sub` and `min`: with those the compiler works out the bounds of each sum anew, a fifth of a unit's time
    let from = if k < y.len() { 0 } else { k + 1 - y.len() };
    let to = if k < n { k + 1 } else { n };
    let mut s: u64 = 0;
    for i in from..to {
        s += u64::from(x[i]) * u64::from(y[k - i]);
    }
    s
}

// The low coefficients of g x + h y, as many as d holds; zeros at the ends of g and h cost nothing.
pub fn mix(p: u64, g: &[u16], x: &[u16], h: &[u16], y: &[u16], d: &mut [u16])
    requires { MixAsks p g.now h.now d.old }
    ensures { Mixed p g.now x.now h.now y.now d.old d.new }
{
    let m = size(g);
    let n = size(h);
    for k in 0..d.len() {
        let s = sum_at(g, m, x, k);
        let t = sum_at(h, n, y, k);
        d[k] = ((s + t) % p) as u16;
    }
}
