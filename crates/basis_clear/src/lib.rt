// The first half of the reduction of two elements b r + c w, on rows of 32 coefficients, lowest first, each below p.
// Elements are lent, and turned in place; crate basis_parts has the polynomial parts, crate basis_top their leading terms.
// Every contract speaks of the polynomial that a row stands for; none speaks of coefficients.
#![tactic(auto)]

ghost use Rattle.basis_clear.specs.Clear.{CanceledAsks, CanceledGives, ClearYAsks, Cleared, pair, swap_if};

use basis_parts::{Element, Frame};
use basis_top::{Top, top_of};
use poly_cross::cross_in;

// The element a with its leading term canceled by b, which is no longer: s a - c t^k b in place of a, and the top of its size
pub fn canceled(
    f: &Frame,
    top: usize,
    minus: bool,
    a: &mut Element,
    ta: Top,
    b: &Element,
    tb: Top,
    low: usize,
) -> Top
    requires { CanceledAsks f.now minus a.old.b a.old.c ta b.now.b b.now.c tb top low }
    ensures { CanceledGives f.now minus a.old.b a.old.c ta b.now.b b.now.c tb top low a.new.b a.new.c result }
{
    let s = tb.c;
    let c = ta.c;
    let k = ta.n - tb.n;
    cross_in(f.m, s, &mut a.b, c, k, &b.b, top - f.dr);
    cross_in(f.m, s, &mut a.c, c, k, &b.c, top - f.dw);
    top_of(f, top, minus, a, ta.n - 1, low)
}

// Leading terms of Y are canceled until one Y lies below the denominator's degree, lu - 1: that of n where the answer is yes.
pub fn clear_y(f: &Frame, top: usize, m: &mut Element, n: &mut Element, lu: usize) -> bool
    requires { ClearYAsks f.now (pair m.old.b m.old.c n.old.b n.old.c) top lu }
    ensures { Cleared f.now (pair m.old.b m.old.c n.old.b n.old.c) top lu (swap_if result (pair m.new.b m.new.c n.new.b n.new.c)) }
{
    let low = lu - 1;
    let mut y1 = top_of(f, top, true, m, top, low);
    let mut y2 = top_of(f, top, true, n, top, low);
    // Runs while a length is too long, and counts nothing.
    while lu <= y1.n {
        if y2.n < lu {
            return true;
        }
        if y1.n < y2.n {
            y2 = canceled(f, top, true, n, y2, m, y1, low);
        } else {
            y1 = canceled(f, top, true, m, y1, n, y2, low);
        }
    }
    false
}
