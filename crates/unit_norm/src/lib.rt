// The norm of E = A + Br + Cw. specs/Norm.antt says what it is, specs/Code.antt what the functions do.
//
// No buffer is lent for the work, so the lists stand in arrays of their greatest lengths: 13 coefficients for G and H, 4,096 for each row
// of E, and for a product the sum of its factors' lengths: 12,327 for the norm.
#![tactic(auto)]

ghost use Rattle.unit_norm.specs.Code.{SquareAsks, Square, CubesAsks, Cubes, NormAsks, Norm};

use poly_long::scale;
use poly_mix::mix;
use poly_products::times;

// a² − 3 gh b c
fn square(p: u64, gh: &[u16], a: &[u16], b: &[u16], c: &[u16], out: &mut [u16])
    requires { SquareAsks p gh.now a.now b.now c.now out.old }
    ensures { Square p gh.now a.now b.now c.now out.old out.new }
{
    let mut bc: [u16; 8192] = [0; 8192];
    times(p, b, c, &mut bc);
    scale(p, p - 3, &mut bc);
    mix(p, a, a, gh, &bc, out);
}

// h b³ + g c³
fn cubes(p: u64, g: &[u16], h: &[u16], b: &[u16], c: &[u16], out: &mut [u16])
    requires { CubesAsks p g.now h.now b.now c.now out.old }
    ensures { Cubes p g.now h.now b.now c.now out.old out.new }
{
    let mut hb: [u16; 4109] = [0; 4109];
    times(p, h, b, &mut hb);
    let mut bb: [u16; 8192] = [0; 8192];
    times(p, b, b, &mut bb);
    let mut gc: [u16; 4109] = [0; 4109];
    times(p, g, c, &mut gc);
    let mut cc: [u16; 8192] = [0; 8192];
    times(p, c, c, &mut cc);
    mix(p, &hb, &bb, &gc, &cc, out);
}

// The norm of a + b r + c w: a (a² − 3 gh b c) + gh (h b³ + g c³).
pub fn norm(p: u64, g: &[u16], h: &[u16], a: &[u16], b: &[u16], c: &[u16], out: &mut [u16])
    requires { NormAsks p g.now h.now a.now b.now c.now out.old }
    ensures { Norm p g.now h.now a.now b.now c.now out.old
        out.new }
{
    let mut gh: [u16; 26] = [0; 26];
    times(p, g, h, &mut gh);
    let mut x: [u16; 8218] = [0; 8218];
    square(p, &gh, a, b, c, &mut x);
    let mut y: [u16; 12301] = [0; 12301];
    cubes(p, g, h, b, c, &mut y);
    mix(p, a, &x, &gh, &y, out);
}
