// Refusal 9: whether the lattice of a basis has rank 3 and is closed under products with r and w.
#![tactic(auto)]

ghost use Rattle.basis_lattice.specs.Lent.{seven_of, sizes_of};
ghost use Rattle.basis_closed.specs.Closed.{ClosedOnAsks, Keeps, ClosedUnderRAndWAsks, Under};

use basis_lattice::{Lattice, lengths_of, lent_basis, member};
use basis_record::Seven;
use num_mod::Modulus;
use num_power::inverse;
use poly_lent::times_in;
use poly_rows::{Poly, Row, size};

// Whether r v and w v lie in the lattice, for v = va + vb r + vc w.
fn closed_on(
    q: Modulus,
    g: Poly,
    h: Poly,
    gh: Poly,
    va: Poly,
    vb: Poly,
    vc: Poly,
    k: &Lattice,
) -> bool
    requires { ClosedOnAsks q g.row.now g.len h.row.now h.len gh.row.now gh.len va.row.now va.len vb.row.now vb.len vc.row.now vc.len (seven_of k.now) (sizes_of k.now) k.now.e.row.now k.now.ie }
    ensures { Keeps q.p g.entry.row.now h.entry.row.now gh.entry.row.now va.entry.row.now vb.entry.row.now vc.entry.row.now (seven_of k.now) result }
{
    let mut ra: Row = [0; 32];
    let mut rc: Row = [0; 32];
    let ka = times_in(q, vc, gh, &mut ra);
    let kc = times_in(q, vb, h, &mut rc);
    let by_r = member(
        q,
        Poly { row: &ra, len: ka },
        va,
        Poly { row: &rc, len: kc },
        k,
    );
    let mut wa: Row = [0; 32];
    let mut wb: Row = [0; 32];
    let ja = times_in(q, vb, gh, &mut wa);
    let jb = times_in(q, vc, g, &mut wb);
    let by_w = member(
        q,
        Poly { row: &wa, len: ja },
        Poly { row: &wb, len: jb },
        va,
        k,
    );
    by_r && by_w
}

// Whether the lattice has rank 3 and is closed under products with r and w: U, M and N are enough.
pub fn closed_under_r_and_w(q: Modulus, g: &Row, h: &Row, gh: &Row, rows: &Seven) -> bool
    requires { ClosedUnderRAndWAsks q g.now h.now gh.now rows.now }
    ensures { Under q.p g.now h.now gh.now rows.now result }
{
    let mut e: Row = [0; 32];
    let l = lengths_of(q, 17, rows, &mut e);
    // Before the division by e.
    if l.e == 0 {
        return false;
    }
    let ie = inverse(q.p, e[l.e - 1]);
    let k = lent_basis(rows, l, &e, ie);
    let lg = size(g);
    let lh = size(h);
    let lk = size(gh);
    let x = Poly { row: g, len: lg };
    let y = Poly { row: h, len: lh };
    let xy = Poly { row: gh, len: lk };
    let z: Row = [0; 32];
    let o = Poly { row: &z, len: 0 };
    closed_on(q, x, y, xy, k.u, o, o, &k)
        && closed_on(q, x, y, xy, k.m0, k.m1, k.m2, &k)
        && closed_on(q, x, y, xy, k.n0, k.n1, k.n2, &k)
}
