// The leading terms of the polynomial parts of b r + c w and b r - c w (crate basis_parts), found from above. specs/Tops.antt has the
// contracts.
#![tactic(auto)]

ghost use Rattle.basis_top.specs.Tops.{TopOfAsks, Topped, LeadOfAsks, Led};

use basis_parts::{Element, Frame, digit};

// A length and a leading coefficient. Where there is none it is the least length and 0, and not None: lengths are compared in either case.
#[derive(Clone, Copy)]
pub struct Top {
    pub n: usize,
    pub c: u64,
}

// The length and the leading coefficient of the polynomial part of X(a), or of Y(a), which ends before l; where it ends at or before low,
// low and 0.
pub fn top_of(f: &Frame, top: usize, minus: bool, a: &Element, l: usize, low: usize) -> Top
    requires { TopOfAsks f.now minus a.now.b a.now.c top l low }
    ensures { Topped f.now minus a.now.b a.now.c low l result }
{
    let q = f.m.p * f.m.p;
    for j in (low..l).rev() {
        let v = digit(f, top, q, minus, &a.b, &a.c, j);
        if v > 0 {
            return Top { n: j + 1, c: v };
        }
    }
    Top { n: low, c: 0 }
}

// The leading coefficient of X(a), or of Y(a), where its degree is not below 0
pub fn lead_of(f: &Frame, top: usize, minus: bool, a: &Element) -> u64
    requires { LeadOfAsks f.now minus a.now.b a.now.c top }
    ensures { Led f.now minus a.now.b a.now.c result }
{
    top_of(f, top, minus, a, top, 0).c
}
