// The next pair of coefficients of the series of r and w, from two linear equations, where those before it are there. Crate field_fill has the loop.
#![tactic(auto)]

ghost use Rattle.std.specs.Prelude.{◌+◌, ◌*◌, ◌-◌, ◌%◌};
ghost use Rattle.base_lists.specs.Sums.{entry, prod};
ghost use Rattle.field_next.specs.Next.{Place, Point, Entry, Rest, Two, Four, Filling, Turned};

use base_lists::wide;

// The entry i of a series, 0 past its end.
pub fn coefficient(s: &[u16], i: usize) -> u64
    ensures { Entry s.now i result }
{
    if i < s.len() { wide(s[i]) } else { 0 }
}

// The coefficient i of the product of two series, mod p. A sum of 4,096 products of stored coefficients fits 64 bits.
fn product_at(p: u64, f: &[u16], g: &[u16], i: usize) -> u64
    requires { Place p i }
    ensures { Rest p (prod (entry f.now) (entry g.now) i) result }
{
    let n = f.len().min(i + 1);
    let mut sum: u64 = 0;
    for j in 0..n {
        sum += coefficient(f, j) * coefficient(g, i - j);
    }
    sum % p
}

// What y lacks of x.
fn lack(p: u64, x: u64, y: u64) -> u64
    requires { Two p x y }
    ensures { Rest p (x + (p - y)) result }
{
    (x + (p - y)) % p
}

// u (h x + a y)
fn next_r(p: u64, u: u64, h: u64, a: u64, x: u64, y: u64) -> u64
    requires { Four p u h a x y }
    ensures { Rest p ((h * x + a * y) % p * u) result }
{
    (h * x + a * y) % p * u % p
}

// u (2 a x - w y)
fn next_w(p: u64, u: u64, w: u64, a: u64, x: u64, y: u64) -> u64
    requires { Four p u w a x y }
    ensures { Rest p ((2 * a * x + w * (p - y)) % p * u) result }
{
    (2 * a * x + w * (p - y)) % p * u % p
}

// What f g lacks of x y at i.
fn shortfall(p: u64, x: &[u16], y: &[u16], f: &[u16], g: &[u16], i: usize) -> u64
    requires { Point p i }
    ensures { Rest p (prod (entry x.now) (entry y.now) i % p + (p - prod (entry f.now) (entry g.now) i % p)) result }
{
    lack(p, product_at(p, x, y, i), product_at(p, f, g, i))
}

// The pair i, where those before it are there. What is missing at i of r w = G H and of r² = H w is a = r0 w_i + w0 r_i and
// b = 2 r0 r_i - h0 w_i; u is the inverse of 3 r0².
pub fn next_pair(p: u64, g: &[u16], h: &[u16], u: u64, r: &mut [u16], w: &mut [u16], i: usize)
    requires { Filling p g.now h.now u r.old w.old i }
    ensures { Turned p g.now h.now r.old w.old r.new w.new i }
{
    r[i] = 0;
    w[i] = 0;
    let a = shortfall(p, g, h, r, w, i);
    let b = shortfall(p, h, w, r, r, i);
    let h0 = coefficient(h, 0);
    let r0 = coefficient(r, 0);
    let w0 = coefficient(w, 0);
    r[i] = next_r(p, u, h0, r0, a, b) as u16;
    w[i] = next_w(p, u, w0, r0, a, b) as u16;
}
