// A unit scaled by a convention, which callers name by a number: 1, E0 monic; 2, norm 1. specs/AtZero.antt and specs/Scale.antt say what is asked and done.
#![tactic(auto)]

ghost use Rattle.std.specs.Prelude.{◌*◌, ◌%◌, ◌≡◌, IfSome};
ghost use Rattle.std.specs.Option.{is_none};
ghost use Rattle.unit_scale.specs.AtZero.{ThreeAsks, NormAsks, NormIs, ForMonicAsks, ForMonic, ForNormAsks, ForNorm};
ghost use Rattle.unit_scale.specs.Scale.{numbered, NoConvention, FactorAsks, Factors, TurnAsks, Turns};

use base_lists::wide;
use field_series::OpenedField;
use num_power::{cube_root, inverse, mul};
use poly_long::{scale, size};

// By which rule a unit is scaled: E0 is monic, or the norm is 1.
#[derive(Clone, Copy, PartialEq, Eq)]
pub enum Convention {
    Monic,
    Norm,
}

// The convention that a caller's number names.
pub fn convention_of(n: u32) -> Option<Convention>
    ensures some { IfSome result (λ k. numbered k ≡ n) }
    ensures none { NoConvention n (is_none result) }
{
    match n {
        1 => Some(Convention::Monic),
        2 => Some(Convention::Norm),
        _ => None,
    }
}

// a b c
fn product(p: u64, a: u64, b: u64, c: u64) -> u64
    requires { ThreeAsks p a b c }
    ensures { result ≡ ((a * b) % p * c) % p }
{
    mul(p, mul(p, a, b), c)
}

// The norm of a + b r + c w from numbers for G, H, a, b, c: a³ + g h (h b³ + g c³ − 3 a b c).
fn norm(p: u64, g: u64, h: u64, a: u64, b: u64, c: u64) -> u64
    requires { NormAsks p g h a b c }
    ensures { NormIs p g h a b c result }
{
    let x = mul(p, h, product(p, b, b, b));
    let y = mul(p, g, product(p, c, c, c));
    let z = mul(p, p - 3, product(p, a, b, c));
    let s = (x + y + z) % p;
    let m = product(p, g, h, s);
    (product(p, a, a, a) + m) % p
}

// What makes E0 monic.
fn for_monic(p: u64, c: usize, rows: &[u16]) -> u64
    requires { ForMonicAsks p c rows.now }
    ensures { ForMonic p c rows.now result }
{
    let n = size(&rows[0..c]);
    inverse(p, wide(rows[n - 1]))
}

// What makes the norm 1. The norm of a unit is a constant, so that it is its own value at t = 0.
fn for_norm(p: u64, g: u64, h: u64, c: usize, rows: &[u16]) -> u64
    requires { ForNormAsks p g h c rows.now }
    ensures { ForNorm p g h c rows.now result }
{
    let v = norm(p, g, h, wide(rows[0]), wide(rows[c]), wide(rows[c + c]));
    let u = inverse(p, v);
    cube_root(p, u)
}

// The constant by which the unit in the rows is to be multiplied.
pub fn factor(f: OpenedField, convention: Convention, c: usize, rows: &[u16]) -> u64
    requires { FactorAsks f (numbered convention) c rows.now }
    ensures { Factors f (numbered convention) c rows.now result }
{
    let q = f.field;
    match convention {
        Convention::Monic => for_monic(q.p, c, rows),
        Convention::Norm => for_norm(q.p, q.g[0], q.h[0], c, rows),
    }
}

// The unit in the rows scaled by a convention, in place: E times the constant, its inverse over it.
pub fn turn(f: OpenedField, convention: Convention, c: usize, rows: &mut [u16])
    requires { TurnAsks f (numbered convention) c rows.old }
    ensures { Turns f (numbered convention) c rows.old rows.new }
{
    let q = f.field;
    let by = factor(f, convention, c, rows);
    let back = inverse(q.p, by);
    let c3 = c + c + c;
    let c6 = c3 + c3;
    scale(q.p, by, &mut rows[0..c3]);
    scale(q.p, back, &mut rows[c3..c6]);
}
