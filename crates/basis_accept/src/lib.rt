// Refusal 9: all tests of a record. Each is two-sided. specs/Tests.antt has what they decide; proofs/ has that lengths of polynomial parts decide
// the sizes (Shapes). Crates basis_bounds and basis_shape have the tests of numbers and lengths, crate basis_coprime that of a common factor, crate basis_closed those of closure.
#![tactic(auto)]

ghost use Rattle.field_series.specs.Keeps.{Known};
ghost use Rattle.basis_accept.specs.Answer.{PassesAsks, Passes, Accepts};
ghost use Rattle.basis_accept.specs.Tests.{SizesRightAsks, Shaped};

use basis_bounds::below;
use basis_closed::closed_under_r_and_w;
use basis_coprime::no_common_factor;
use basis_parts::{Frame, floor};
use basis_record::{Seven, unpacked};
use basis_shape::{rows_fit, shape};
use field_series::OpenedField;
use num_mod::prepare;
use poly_cross::cross_in;

// The sizes of seven rows: on U and on the polynomial parts of X(M), Y(M), X(N), Y(N), Z(M), Z(N).
fn sizes_right(f: &Frame, top: usize, rows: &Seven) -> bool
    requires { SizesRightAsks f.now top rows.now }
    ensures { Shaped f.now rows.now result }
{
    let mx = floor(f, top, false, &rows.m1, &rows.m2);
    let my = floor(f, top, true, &rows.m1, &rows.m2);
    let nx = floor(f, top, false, &rows.n1, &rows.n2);
    let ny = floor(f, top, true, &rows.n1, &rows.n2);
    let q = f.m;
    let mut zm = rows.m0;
    let mut zn = rows.n0;
    cross_in(q, 2, &mut zm, 1, 0, &mx, 32);
    cross_in(q, 2, &mut zn, 1, 0, &nx, 32);
    shape(&rows.u, &mx, &my, &nx, &ny, &zm, &zn)
}

// Whether seven rows are the scaled reduced basis of a reduced ideal of an opened field.
fn passes(c: &OpenedField, rows: &Seven) -> bool
    requires { PassesAsks c.now rows.now }
    ensures { Passes c.now rows.now result }
{
    let f = &c.field;
    let q = prepare(f.p);
    let frame = Frame {
        m: q,
        r: c.r,
        w: c.w,
        dr: f.dr,
        dw: f.dw,
    };
    rows_fit(f.dw + 1, f.dr + 1, rows)
        && sizes_right(&frame, f.dr + f.dw + 1, rows)
        && no_common_factor(q, rows)
        && closed_under_r_and_w(q, &f.g, &f.h, &f.gh, rows)
}

// Whether 119 numbers are a record of an opened field: the scaled reduced basis of a reduced ideal of it.
pub fn accepts(c: OpenedField, rows: [u16; 119]) -> bool
    requires { Known c }
    ensures { Accepts c rows result }
{
    below(c.field.p, rows) && passes(&c, &unpacked(&rows))
}
