// The generators of the next ideal, on rows: r m and w m in coordinates, and what they have in common taken off.
#![tactic(auto)]

ghost use Rattle.basis_record.specs.Seven.{three};
ghost use Rattle.step_divide.specs.Generated.{generators, NextGeneratorsAsks, Divided};

use basis_lattice::{lengths_of, lent_basis};
use basis_parts::Element;
use basis_record::Seven;
use num_mod::Modulus;
use poly_content::without_content;
use poly_rows::{Poly, Row};
use step_coordinates::{coordinates_of_rm, coordinates_of_wm, negate};

// The degree of what was taken off, and the lengths of x1, y1, of the denominator, of M0 and of U.
#[derive(Clone, Copy)]
pub struct Cuts {
    pub cut: usize,
    pub x: usize,
    pub y: usize,
    pub d: usize,
    pub m0: usize,
    pub u: usize,
}

// From r m = x0 + x1 m + x2 n and w m = y0 + y1 m + y2 n, into zero rows: x1 and y1, the generators (-y2, x2)/k into m and (y0, -x0)/k into n,
// where k is what x0, x2, y0, y2 have in common, and the denominator d = (x2 y0 - x0 y2)/k. All rows lent end before
// the length of G H; ie = -lead(G H) is the inverse of the leading coefficient of e.
pub fn next_generators(
    q: Modulus,
    g: Poly,
    h: Poly,
    gh: Poly,
    ie: u64,
    rows: &Seven,
    m: &mut Element,
    n: &mut Element,
    x: &mut Row,
    y: &mut Row,
    d: &mut Row,
) -> Cuts
    requires { NextGeneratorsAsks q gh.len g.row.now g.len h.row.now h.len gh.row.now ie rows.now (three n.old.c x.old m.old.c) (three n.old.b y.old m.old.b) d.old }
    ensures { Divided q.p g.entry.row.now h.entry.row.now gh.entry.row.now rows.now (generators x.new y.new m.new.b m.new.c n.new.b n.new.c d.new result.cut) result }
{
    let mut e: Row = [0; 32];
    let l = lengths_of(q, gh.len, rows, &mut e);
    let k = lent_basis(rows, l, &e, ie);
    let of_r = coordinates_of_rm(q, h, gh, &k, &mut n.c, x, &mut m.c);
    let of_w = coordinates_of_wm(q, g, gh, &k, &mut n.b, y, &mut m.b);
    negate(q.p, &mut n.c, of_r.a);
    negate(q.p, &mut m.b, of_w.c);
    let o = without_content(
        q, &mut n.c, of_r.a, &mut m.c, of_r.c, &mut n.b, of_w.a, &mut m.b, of_w.c, d,
    );
    Cuts {
        cut: o.cut,
        x: of_r.b,
        y: of_w.b,
        d: o.d,
        m0: l.m0,
        u: l.u,
    }
}
