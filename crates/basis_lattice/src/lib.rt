// The lattice of a basis: the coordinates of an element as quotients, and whether it lies in the lattice. Rows are lent, their lengths known.
#![tactic(auto)]

ghost use Rattle.std.specs.Prelude.{◌≡◌};
ghost use Rattle.basis_record.specs.Seven.{three};
ghost use Rattle.basis_lattice.specs.Coordinates.{LengthsOfAsks, Found, OuterAsks, OuterGives, CoordinatesAsks, Coordinates};
ghost use Rattle.basis_lattice.specs.Lent.{Lent, seven_of, sizes_of};
ghost use Rattle.basis_lattice.specs.Lattice.{InsideAsks, Inside, MemberAsks, Member};

use basis_record::Seven;
use num_mod::Modulus;
use poly_divide::{divide_in, less_in, quotient_in};
use poly_lent::{both_in, det_in};
use poly_rows::{Poly, Row, size_from};

// The lengths of the seven rows of a basis, and of e = M1 N2 - M2 N1.
#[derive(Clone, Copy)]
pub struct Lengths {
    pub m0: usize,
    pub m1: usize,
    pub m2: usize,
    pub n0: usize,
    pub n1: usize,
    pub n2: usize,
    pub u: usize,
    pub e: usize,
}

// The lengths of seven rows that end before cap, and e into the zero row e.
pub fn lengths_of(q: Modulus, cap: usize, rows: &Seven, e: &mut Row) -> Lengths
    requires { LengthsOfAsks q cap rows.now e.old }
    ensures { Found q.p rows.now e.new result }
{
    let m1 = size_from(&rows.m1, cap);
    let m2 = size_from(&rows.m2, cap);
    let n1 = size_from(&rows.n1, cap);
    let n2 = size_from(&rows.n2, cap);
    let k = det_in(
        q,
        Poly {
            row: &rows.m1,
            len: m1,
        },
        Poly {
            row: &rows.n2,
            len: n2,
        },
        Poly {
            row: &rows.m2,
            len: m2,
        },
        Poly {
            row: &rows.n1,
            len: n1,
        },
        e,
    );
    Lengths {
        m0: size_from(&rows.m0, cap),
        m1,
        m2,
        n0: size_from(&rows.n0, cap),
        n1,
        n2,
        u: size_from(&rows.u, cap),
        e: k,
    }
}

// A lent basis: its seven rows and e = M1 N2 - M2 N1 with their lengths, and the inverse ie of e's leading coefficient.
#[derive(Clone, Copy)]
pub struct Lattice<'a> {
    pub m0: Poly<'a>,
    pub m1: Poly<'a>,
    pub m2: Poly<'a>,
    pub n0: Poly<'a>,
    pub n1: Poly<'a>,
    pub n2: Poly<'a>,
    pub u: Poly<'a>,
    pub e: Poly<'a>,
    pub ie: u64,
}

// A basis, lent with its lengths.
pub fn lent_basis<'a>(rows: &'a Seven, l: Lengths, e: &'a Row, ie: u64) -> Lattice<'a>
    ensures { Lent rows.now l e.now ie result }
{
    Lattice {
        m0: Poly {
            row: &rows.m0,
            len: l.m0,
        },
        m1: Poly {
            row: &rows.m1,
            len: l.m1,
        },
        m2: Poly {
            row: &rows.m2,
            len: l.m2,
        },
        n0: Poly {
            row: &rows.n0,
            len: l.n0,
        },
        n1: Poly {
            row: &rows.n1,
            len: l.n1,
        },
        n2: Poly {
            row: &rows.n2,
            len: l.n2,
        },
        u: Poly {
            row: &rows.u,
            len: l.u,
        },
        e: Poly { row: e, len: l.e },
        ie,
    }
}

// The lengths of what e divides, and of the two quotients.
#[derive(Clone, Copy)]
struct OuterSpans {
    s: usize,
    t: usize,
    b: usize,
    c: usize,
}

// s = vb N2 - vc N1 and t = vc M1 - vb M2, and their quotients by e, into four zero rows.
fn outer(
    q: Modulus,
    vb: Poly,
    vc: Poly,
    k: &Lattice,
    s: &mut Row,
    t: &mut Row,
    b: &mut Row,
    c: &mut Row,
) -> OuterSpans
    requires { OuterAsks q vb.row.now vb.len vc.row.now vc.len (seven_of k.now) (sizes_of k.now) k.now.e.row.now k.now.ie s.old t.old b.old c.old }
    ensures { OuterGives q.p vb.entry.row.now vc.entry.row.now (seven_of k.now) k.now.e.row.now s.new t.new b.new c.new result }
{
    let ls = det_in(q, vb, k.n2, vc, k.n1, s);
    let lb = quotient_in(q, Poly { row: s, len: ls }, k.e, k.ie, b);
    let lt = det_in(q, vc, k.m1, vb, k.m2, t);
    let lc = quotient_in(q, Poly { row: t, len: lt }, k.e, k.ie, c);
    OuterSpans {
        s: ls,
        t: lt,
        b: lb,
        c: lc,
    }
}

// The lengths of three coordinates.
#[derive(Clone, Copy)]
pub struct Spans {
    pub a: usize,
    pub b: usize,
    pub c: usize,
}

// The coordinates of va + vb r + vc w, which lies in the lattice, into three zero rows; va, which ends before na, becomes u times the first.
// va and na are no Poly: va is changed in place.
pub fn coordinates(
    q: Modulus,
    va: &mut Row,
    na: usize,
    vb: Poly,
    vc: Poly,
    k: &Lattice,
    a: &mut Row,
    b: &mut Row,
    c: &mut Row,
) -> Spans
    requires { CoordinatesAsks q va.old na vb.row.now vb.len vc.row.now vc.len (seven_of k.now) (sizes_of k.now) k.now.e.row.now k.now.ie (three a.old b.old c.old) }
    ensures { Coordinates q.p va.old vb.entry.row.now vc.entry.row.now (seven_of k.now) k.now.e.row.now (three a.new b.new c.new) va.new result }
{
    let mut s: Row = [0; 32];
    let mut t: Row = [0; 32];
    let o = outer(q, vb, vc, k, &mut s, &mut t, b, c);
    let x = Poly { row: b, len: o.b };
    let y = Poly { row: c, len: o.c };
    let n = both_in(q, true, x, k.m0, true, y, k.n0, va, na);
    let la = quotient_in(q, Poly { row: va, len: n }, k.u, 1, a);
    Spans {
        a: la,
        b: o.b,
        c: o.c,
    }
}

// Whether U divides a - (b M0 + c N0). b and c count modulo U: all three are used up.
// Each row stands beside its length, since it is changed in place.
fn inside(
    q: Modulus,
    a: &mut Row,
    na: usize,
    b: &mut Row,
    nb: usize,
    c: &mut Row,
    nc: usize,
    k: &Lattice,
) -> bool
    requires { InsideAsks q a.old na b.old nb c.old nc k.now.m0.row.now k.now.m0.len k.now.n0.row.now k.now.n0.len k.now.u.row.now k.now.u.len }
    ensures { Inside q.p a.old b.old c.old k.now.m0.row.now k.now.n0.row.now k.now.u.row.now result }
{
    let mut d: Row = [0; 32];
    let mut f: Row = [0; 32];
    let mut g: Row = [0; 32];
    let x = divide_in(q, b, nb, k.u, 1, &mut d);
    let y = divide_in(q, c, nc, k.u, 1, &mut f);
    let v = Poly { row: b, len: x.r };
    let w = Poly { row: c, len: y.r };
    let n = both_in(q, true, v, k.m0, true, w, k.n0, a, na);
    let z = divide_in(q, a, n, k.u, 1, &mut g);
    z.r == 0
}

// Whether va + vb r + vc w lies in the lattice: its coordinates are exact.
pub fn member(q: Modulus, va: Poly, vb: Poly, vc: Poly, k: &Lattice) -> bool
    requires { MemberAsks q va.row.now va.len vb.row.now vb.len vc.row.now vc.len (seven_of k.now) (sizes_of k.now) k.now.e.row.now k.now.ie }
    ensures { Member q.p va.entry.row.now vb.entry.row.now vc.entry.row.now (seven_of k.now) k.now.e.row.now result }
{
    let mut s: Row = [0; 32];
    let mut t: Row = [0; 32];
    let mut b: Row = [0; 32];
    let mut c: Row = [0; 32];
    let o = outer(q, vb, vc, k, &mut s, &mut t, &mut b, &mut c);
    let mut a = *va.row;
    less_in(q, Poly { row: &b, len: o.b }, k.e, &mut s) == 0
        && less_in(q, Poly { row: &c, len: o.c }, k.e, &mut t) == 0
        && inside(q, &mut a, va.len, &mut b, o.b, &mut c, o.c, k)
}
