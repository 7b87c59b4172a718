// The six rows of a unit and its inverse, in one lent slice: E0, E1, E2, F0, F1, F2 of c coefficients each. Here the rows of E.
// The places c, c + c, .. are written out: the contracts count in them, and a function for a row would hide where it stands.
#![tactic(auto)]

ghost use Rattle.std.specs.Prelude.{◌≡◌, length, replicate};
ghost use Rattle.unit_rows.specs.Six.{ByAsks, By, CoordinateAsks, Coordinate, TimesAsks, Times, MultiplyByMAsks, Turn};

use poly_long::{clear, copy, size};
use poly_quotient::quotient;

// x y, for two short ones
fn by(p: u64, x: &[u16], y: &[u16]) -> [u16; 50]
    requires { ByAsks p x.now y.now }
    ensures { By p x.now y.now result }
{
    let mut d: [u16; 50] = [0; 50];
    poly_products::times(p, x, y, &mut d);
    d
}

// (a E0 + b E1 + d E2) / u, n coefficients of it, into s from at on; e holds the E rows.
fn coordinate(
    p: u64,
    c: usize,
    n: usize,
    a: &[u16],
    b: &[u16],
    d: &[u16],
    u: &[u16],
    e: &[u16],
    at: usize,
    s: &mut [u16],
)
    requires { CoordinateAsks p c n a.now b.now d.now u.now e.now at s.old }
    ensures { Coordinate p c n a.now b.now d.now u.now e.now at s.old s.new }
{
    let c2 = c + c;
    quotient(
        p,
        &a[0..size(a)],
        &e[0..c],
        &b[0..size(b)],
        &e[c..c2],
        &d[0..size(d)],
        &e[c2..c2 + c],
        &u[0..size(u)],
        &mut s[at..at + n],
    );
}

// E times m, n coefficients of each row, into the blank s. b is the basis record of m; gh is G H.
fn times(
    p: u64,
    c: usize,
    n: usize,
    g: &[u16],
    h: &[u16],
    gh: &[u16],
    b: &[u16],
    e: &[u16],
    s: &mut [u16],
)
    requires { TimesAsks p c n g.now h.now gh.now b.now e.now s.old }
    ensures { Times p c n g.now h.now gh.now b.now e.now s.old s.new }
{
    let m0 = &b[0..17];
    let m1 = &b[17..34];
    let m2 = &b[34..51];
    let u = &b[102..119];
    let m1gh = by(p, m1, gh);
    let m2gh = by(p, m2, gh);
    let m2g = by(p, m2, g);
    let m1h = by(p, m1, h);
    coordinate(p, c, n, m0, &m2gh, &m1gh, u, e, 0, s);
    coordinate(p, c, n, m1, m0, &m2g, u, e, c, s);
    coordinate(p, c, n, m2, &m1h, m0, u, e, c + c, s);
}

// E times m in place; the scratch is blank before and after.
pub fn multiply_by_m(
    p: u64,
    c: usize,
    n: usize,
    g: &[u16],
    h: &[u16],
    gh: &[u16],
    b: &[u16],
    rows: &mut [u16],
    s: &mut [u16],
)
    requires { MultiplyByMAsks p c n g.now h.now gh.now b.now rows.old s.old }
    ensures { Turn p c n g.now h.now gh.now b.now rows.old s.old rows.new s.new }
{
    times(p, c, n, g, h, gh, b, rows, s);
    let c3 = c + c + c;
    copy(&s[0..c3], &mut rows[0..c3]);
    clear(s);
}
