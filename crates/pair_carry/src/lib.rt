// The six rows of a unit carried over to a pair that agrees with theirs, in either order. specs/Code.antt says what the functions do.
#![tactic(auto)]

ghost use Rattle.pair_carry.specs.Code.{CarryAsks, Carried, CarriedSwapped};

use pair_factors::factors;
use pair_rows::{exchange, multiplied};

// The six rows of the pair g, h for the pair g2, h2, which agrees with it in this order.
pub fn carry(p: u64, g: &[u64], h: &[u64], g2: &[u64], h2: &[u64], c: usize, rows: &mut [u16])
    requires { CarryAsks p g.now h.now g2.now h2.now c rows.old }
    ensures { Carried p g.now h.now g2.now h2.now c rows.old rows.new }
{
    let a = g[g.len() - 1];
    let b = h[h.len() - 1];
    let d = g2[g2.len() - 1];
    let e = h2[h2.len() - 1];
    let f = factors(p, a, b, d, e);
    multiplied(p, f.x, f.y, c, rows);
}

// The same where they agree in the other order: E1 and E2 change places first, and so do F1 and F2.
pub fn carry_swapped(
    p: u64,
    g: &[u64],
    h: &[u64],
    g2: &[u64],
    h2: &[u64],
    c: usize,
    rows: &mut [u16],
)
    requires { CarryAsks p g.now h.now g2.now h2.now c rows.old }
    ensures { CarriedSwapped p g.now h.now g2.now h2.now c rows.old rows.new }
{
    let c2 = c + c;
    let f1 = c2 + c2;
    exchange(rows, c, c2, c);
    exchange(rows, f1, f1 + c, c);
    carry(p, h, g, g2, h2, c, rows);
}
