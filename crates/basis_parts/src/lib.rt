// The polynomial parts of b r + c w and b r - c w, for two series r and w by their first coefficients.
// Loops run over true lengths: top is one more than the largest degree of a size, so that rows b end before top - dr and rows c before top - dw.
#![tactic(auto)]

ghost use Rattle.std.specs.Prelude.{◌≡◌, ◌+◌, ◌*◌, ◌-◌, ◌%◌, ◌<◌, ◌≤◌};
ghost use Rattle.basis_parts.specs.Leaves.{PlusAsks, Summed, TermsAsks, Terms, PlainAsks, PartAsks, PartAtAsks, PartAt, Parted};

use num_mod::{Modulus, reduce};
use poly_rows::Row;

// A prepared modulus, the first coefficients of two series r and w, and their degrees
#[derive(Clone, Copy)]
pub struct Frame {
    pub m: Modulus,
    pub r: Row,
    pub w: Row,
    pub dr: usize,
    pub dw: usize,
}

// The element b r + c w
#[derive(Clone, Copy)]
pub struct Element {
    pub b: Row,
    pub c: Row,
}

// x + y z, less q = p p where it reaches that
fn plus(p: u64, q: u64, x: u64, y: u64, z: u64) -> u64
    requires { PlusAsks p q x y z }
    ensures { Summed p q x y z result }
{
    let s = x + y * z;
    if s < q { s } else { s - q }
}

// The coefficient at t^j of b times the series s of degree d, from n terms of b; below q = p p.
fn terms(p: u64, q: u64, b: &Row, n: usize, s: &Row, d: usize, j: usize) -> u64
    requires { TermsAsks p q b.now n s.now d j }
    ensures { Terms p q b.now n s.now d j result }
{
    let mut a: u64 = 0;
    for i in j.saturating_sub(d)..n {
        a = plus(p, q, a, b[i], s[d + i - j]);
    }
    a
}

// The same where the sum fits as it is, for p below 2^16. It isn't `terms` with a step that is passed in: there each step stays below q, here
// the bound of the sum grows with i, and a contract of the step would have to say both.
fn plain(p: u64, b: &Row, n: usize, s: &Row, d: usize, j: usize) -> u64
    requires { PlainAsks p b.now n s.now d j }
    ensures { Terms p (32 * (p * p) + 1) b.now n s.now d j result }
{
    let mut a: u64 = 0;
    for i in j.saturating_sub(d)..n {
        a += b[i] * s[d + i - j];
    }
    a
}

// The coefficient at t^j of b r + c w, or of b r - c w; q = p p
pub fn digit(f: &Frame, top: usize, q: u64, minus: bool, b: &Row, c: &Row, j: usize) -> u64
    requires { PartAtAsks f.now q b.now c.now top j }
    ensures { PartAt f.now minus b.now c.now top j result }
{
    let p = f.m.p;
    let nb = top - f.dr;
    let nc = top - f.dw;
    let (x, y, most) = if p < 65536 {
        let x = plain(p, b, nb, &f.r, f.dr, j);
        let y = plain(p, c, nc, &f.w, f.dw, j);
        (x, y, 32 * q)
    } else {
        let x = terms(p, q, b, nb, &f.r, f.dr, j);
        let y = terms(p, q, c, nc, &f.w, f.dw, j);
        (x, y, q)
    };
    let v = if minus { x + (most - y) } else { x + y };
    reduce(f.m, v)
}

// The polynomial part of b r + c w, or of b r - c w, into z
pub fn floor_in(f: &Frame, top: usize, minus: bool, b: &Row, c: &Row, z: &mut Row)
    requires { PartAsks f.now b.now c.now top }
    ensures { Parted f.now minus b.now c.now top z.new }
{
    let q = f.m.p * f.m.p;
    *z = [0; 32];
    for j in 0..top {
        z[j] = digit(f, top, q, minus, b, c, j);
    }
}

// The same as a row of its own
pub fn floor(f: &Frame, top: usize, minus: bool, b: &Row, c: &Row) -> Row
    requires { PartAsks f.now b.now c.now top }
    ensures { Parted f.now minus b.now c.now top result }
{
    let mut z: Row = [0; 32];
    floor_in(f, top, minus, b, c, &mut z);
    z
}
