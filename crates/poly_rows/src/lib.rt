// Polynomials mod p as rows of 32 coefficients, lowest first, each below p, zeros above the degree; lent or handed out.
// Every contract speaks of the polynomial that a row stands for (`row` of crate math_rows). Loops stop at true lengths. Sums are taken in 64
// bits with one remainder for each coefficient, for every p below 2^31, by the prepared modulus of crate num_mod.
#![tactic(auto)]

ghost use Rattle.std.specs.Prelude.{◌≡◌, ◌+◌, ◌*◌, ◌-◌, ◌%◌, ◌<◌, ◌≤◌, length};
ghost use Rattle.math_rows.specs.Row.{Size};
ghost use Rattle.poly_rows.specs.Leaf.{Cut, Given, Opposite, MulAsks, Product, Listed};
ghost use Rattle.poly_rows.specs.Coefficients.{PartAsks, Part, ProductCoefficientAsks};
ghost use Rattle.poly_rows.specs.Division.{QuotientCoefficientAsks, Digit};
ghost use Rattle.math_rows.specs.Sum.{sum_to, term_at};

use num_mod::{Modulus, add_product, prepare, reduce, reduce_once};

pub type Row = [u64; 32];

// A lent row with its length: it is 0 from there on.
#[derive(Clone, Copy)]
pub struct Poly<'a> {
    pub row: &'a Row,
    pub len: usize,
}

// The trimmed length of x, whose coefficients from n on are 0.
pub fn size_from(x: &Row, n: usize) -> usize
    requires { Cut x.now n }
    ensures { Size x.now result }
{
    base_lists::size(&x[..n])
}

// One more than the degree; 0 for the zero polynomial.
pub fn size(x: &Row) -> usize
    requires { length x.now ≡ 32 }
    ensures { Size x.now result }
{
    base_lists::size(x)
}

// - x
pub fn minus(p: u64, x: &Row) -> Row
    requires { Given p x.now }
    ensures { Opposite p x.now result }
{
    let mut r = *x;
    for c in r.iter_mut() {
        *c = reduce_once(p, p - *c);
    }
    r
}

// The terms from .. to - 1 of coefficient k of x y, up to a multiple of p.
fn folded(p: u64, x: &Row, y: &Row, from: usize, to: usize, k: usize) -> u64
    requires { PartAsks p x.now y.now from to k }
    ensures { Part p x.now y.now from to k result }
{
    let mut s: u64 = 0;
    for i in from..to {
        s = add_product(p, s, x[i], y[k - i]);
    }
    s
}

// The same. Below 2^28 the sum fits as it is, and the inner loop of the walk is faster without the test of each turn.
fn terms(p: u64, x: &Row, y: &Row, from: usize, to: usize, k: usize) -> u64
    requires { PartAsks p x.now y.now from to k }
    ensures { Part p x.now y.now from to k result }
{
    if p < 268435456 {
        let mut s: u64 = 0;
        for i in from..to {
            s += x[i] * y[k - i];
        }
        s
    } else {
        folded(p, x, y, from, to, k)
    }
}

// Coefficient k of x y, from the trimmed lengths n and m.
fn product_coefficient(q: Modulus, x: &Row, n: usize, y: &Row, m: usize, k: usize) -> u64
    requires { ProductCoefficientAsks q x.now n y.now m k }
    ensures { result ≡ sum_to (term_at x.now y.now k) n % q.p }
{
    let from = (k + 1).saturating_sub(m);
    let to = n.min(k + 1);
    let v = terms(q.p, x, y, from, to, k);
    reduce(q, v)
}

// x y, where the product fits.
pub fn mul(p: u64, x: &Row, y: &Row) -> Row
    requires { MulAsks p x.now y.now }
    ensures { Product p x.now y.now result }
{
    let q = prepare(p);
    let n = size(x);
    let m = size(y);
    let mut r: Row = [0; 32];
    for k in 0..(n + m).saturating_sub(1) {
        r[k] = product_coefficient(q, x, n, y, m, k);
    }
    r
}

// The entries of a list of at most 32.
pub fn from_list(s: &[u64]) -> Row
    requires { length s.now ≤ 32 }
    ensures { Listed s.now result }
{
    let mut r: Row = [0; 32];
    r[..s.len()].copy_from_slice(s);
    r
}

// The coefficient of a / b at k, where q holds those above, up to top.
pub fn quotient_coefficient(
    s: Modulus,
    a: &Row,
    q: &Row,
    b: &Row,
    m: usize,
    il: u64,
    top: usize,
    k: usize,
) -> u64
    requires { QuotientCoefficientAsks s a.now q.now b.now m il top k }
    ensures { Digit s.p a.now q.now b.now m il k result }
{
    let at = k + (m - 1);
    let to = top.min(at + 1);
    let u = terms(s.p, q, b, k + 1, to, at);
    let v = reduce(s, u);
    reduce(s, (a[at] + (s.p - v)) * il)
}
