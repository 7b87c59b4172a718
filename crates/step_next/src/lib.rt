// The step: from the record of a reduced ideal to that of the ideal divided by m, with the degree of m.
#![tactic(auto)]

ghost use Rattle.step_part.specs.Parting.{StepOnRowsAsks};
ghost use Rattle.step_next.specs.Steps.{Advanced};
ghost use Rattle.step_next.specs.InField.{StepInFieldAsks, StepInFieldGives};

use basis_parts::{Element, Frame};
use basis_scale::reduced_basis;
use num_mod::prepare;
use poly_rows::Row;
use step_part::parted;

// The degree of the m divided by, and the next record.
#[derive(Clone, Copy)]
pub struct StepTaken {
    pub degree: u64,
    pub basis: [u16; 119],
}

// What a field keeps from step to step is lent: G, H and G·H, the degrees of r and w and their first 32 coefficients.
pub fn step_on_rows(
    p: u64,
    g: &Row,
    h: &Row,
    gh: &Row,
    dr: usize,
    dw: usize,
    r: &Row,
    w: &Row,
    b: &[u16; 119],
) -> StepTaken
    requires { StepOnRowsAsks p g.now h.now gh.now dr dw r.now w.now b.now }
    ensures { Advanced p g.now h.now gh.now dr dw r.now w.now b.now result }
{
    let q = prepare(p);
    let zero: Row = [0; 32];
    let mut m = Element { b: zero, c: zero };
    let mut n = m;
    let mut x = zero;
    let mut y = zero;
    let mut d = zero;
    let k = parted(
        q, g, h, gh, dr, dw, b, &mut m, &mut n, &mut x, &mut y, &mut d,
    );
    let f = Frame {
        m: q,
        r: *r,
        w: *w,
        dr,
        dw,
    };
    let top = dr + dw + 1 - k.cut;
    let o = reduced_basis(
        &f, top, &mut m, &mut n, &mut d, k.d, &mut x, k.x, &mut y, k.y,
    );
    StepTaken {
        degree: k.degree as u64,
        basis: o,
    }
}

// The step in an opened field.
pub fn step_in_field(c: field_series::OpenedField, b: [u16; 119]) -> StepTaken
    requires { StepInFieldAsks c b }
    ensures { StepInFieldGives c b result }
{
    let f = &c.field;
    step_on_rows(f.p, &f.g, &f.h, &f.gh, f.dr, f.dw, &c.r, &c.w, &b)
}
