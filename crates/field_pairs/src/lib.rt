// All pairs of coefficients of the series of r and w in one pass, from the first of r. Crate field_next has the turn of the loop.
#![tactic(auto)]

ghost use Rattle.std.specs.Prelude.{◌*◌, ◌%◌};
ghost use Rattle.field_next.specs.Next.{Rest, Four};
ghost use Rattle.field_pairs.specs.Pairs.{Filler, Made};

use field_next::{coefficient, next_pair};

// w0 = c²/h0 = 3 g0 h0 c u, where c³ = g0 h0² and u is the inverse of 3 c².
fn first_w(p: u64, u: u64, g: u64, h: u64, c: u64) -> u64
    requires { Four p u g h c c }
    ensures { Rest p (3 * ((g * h) % p) * ((c * u) % p)) result }
{
    3 * (g * h % p) * (c * u % p) % p
}

// All pairs, from c and u as above: the first, then one after the other.
pub fn fill(p: u64, g: &[u16], h: &[u16], c: u64, u: u64, r: &mut [u16], w: &mut [u16])
    requires { Filler p g.now h.now c u r.old w.old }
    ensures { Made p g.now h.now c r.old r.new w.new }
{
    if r.len() > 0 {
        let x = first_w(p, u, coefficient(g, 0), coefficient(h, 0), c);
        r[0] = c as u16;
        w[0] = x as u16;
        for i in 1..r.len() {
            next_pair(p, g, h, u, r, w, i);
        }
    }
}
