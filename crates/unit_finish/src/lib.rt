// From the product of the minima to the unit: E made monic, and its inverse. specs/Finish.antt says what the functions ask and do.
#![tactic(auto)]

ghost use Rattle.unit_finish.specs.Finish.{InvertedAsks, Inverses, FinishedAsks, Finishes};

use field_series::OpenedField;
use poly_long::to_stored;

// The inverse after E, from the k low coefficients of the cofactor.
fn inverted(f: OpenedField, c: usize, k: usize, rows: &mut [u16], s: &mut [u16])
    requires { InvertedAsks f c k rows.old s.old }
    ensures { Inverses f c rows.old s.old rows.new s.new }
{
    let q = f.field;
    let g = to_stored(&q.g);
    let h = to_stored(&q.h);
    let gh = to_stored(&q.gh);
    let ngh = to_stored(&poly_rows::minus(q.p, &q.gh));
    unit_inverse::invert(q.p, c, k, &g, &h, &gh, &ngh, rows, s);
}

// E made monic, and its inverse; E has degree d.
pub fn finished(f: OpenedField, c: usize, d: usize, rows: &mut [u16], s: &mut [u16])
    requires { FinishedAsks f c d rows.old s.old }
    ensures { Finishes f c d rows.old s.old rows.new s.new }
{
    let q = f.field;
    unit_monic::monic(q.p, c, d + 1, rows);
    inverted(f, c, d / 2 + 1, rows, s);
}
