// r m and w m in coordinates, on rows, and a row negated. specs/Turns.antt says what the functions do.
#![tactic(auto)]

ghost use Rattle.basis_record.specs.Seven.{three};
ghost use Rattle.basis_lattice.specs.Lent.{seven_of, sizes_of};
ghost use Rattle.step_coordinates.specs.Turns.{CoordinatesOfRmAsks, TurnedR, CoordinatesOfWmAsks, TurnedW, NegateAsks, Negated};

use basis_lattice::{Lattice, Spans, coordinates};
use num_mod::{Modulus, reduce_once};
use poly_lent::times_in;
use poly_rows::{Poly, Row};

// r m = M2 G H + M0 r + M1 H w in coordinates.
pub fn coordinates_of_rm(
    q: Modulus,
    h: Poly,
    gh: Poly,
    k: &Lattice,
    a: &mut Row,
    b: &mut Row,
    c: &mut Row,
) -> Spans
    requires { CoordinatesOfRmAsks q h.row.now h.len gh.row.now gh.len (seven_of k.now) (sizes_of k.now) k.now.e.row.now k.now.ie (three a.old b.old c.old) }
    ensures { TurnedR q.p h.entry.row.now gh.entry.row.now (seven_of k.now) (three a.new b.new c.new) result }
{
    let mut x: Row = [0; 32];
    let mut z: Row = [0; 32];
    let nx = times_in(q, k.m2, gh, &mut x);
    let nz = times_in(q, k.m1, h, &mut z);
    coordinates(q, &mut x, nx, k.m0, Poly { row: &z, len: nz }, k, a, b, c)
}

// w m = M1 G H + M2 G r + M0 w in coordinates.
pub fn coordinates_of_wm(
    q: Modulus,
    g: Poly,
    gh: Poly,
    k: &Lattice,
    a: &mut Row,
    b: &mut Row,
    c: &mut Row,
) -> Spans
    requires { CoordinatesOfWmAsks q g.row.now g.len gh.row.now gh.len (seven_of k.now) (sizes_of k.now) k.now.e.row.now k.now.ie (three a.old b.old c.old) }
    ensures { TurnedW q.p g.entry.row.now gh.entry.row.now (seven_of k.now) (three a.new b.new c.new) result }
{
    let mut x: Row = [0; 32];
    let mut y: Row = [0; 32];
    let nx = times_in(q, k.m1, gh, &mut x);
    let ny = times_in(q, k.m2, g, &mut y);
    coordinates(q, &mut x, nx, Poly { row: &y, len: ny }, k.m0, k, a, b, c)
}

// - x in place of x, whose length is n.
pub fn negate(p: u64, x: &mut Row, n: usize)
    requires { NegateAsks p x.old n }
    ensures { Negated p x.old x.new n }
{
    for i in 0..n {
        x[i] = reduce_once(p, p - x[i]);
    }
}
