// The two series of r and w, from the leading coefficients of G and H; crate field_pairs fills them in one pass, each pair of coefficients from two
// linear equations. Everything here asks for a field that is accepted; the doors are in crate field_series.
#![tactic(auto)]

ghost use Rattle.std.specs.Prelude.{◌≡◌};
ghost use Rattle.math_rows.specs.Row.{tab};
ghost use Rattle.field_roots.specs.SeriesOf.{top};
ghost use Rattle.field_fill.specs.Fill.{Listed, Leads, LeadRoot, ThriceInverse, Room, Grown};

use base_lists::wide;
use field_pairs::fill;

// The coefficient i places below the leading one, 0 past the last.
fn head(p: u64, s: &[u64], i: usize) -> u16
    requires { Listed p s.now }
    ensures { result ≡ top s.now i }
{
    let n = s.len();
    if i < n { s[n - 1 - i] as u16 } else { 0 }
}

// The coefficients of a polynomial from the leading one down, zeros after them.
fn heads(p: u64, s: &[u64]) -> [u16; 13]
    requires { Listed p s.now }
    ensures { result ≡ tab 13 (top s.now) }
{
    std::array::from_fn(|i| head(p, s, i))
}

// The cube root of g h².
fn lead_root(p: u64, g: u64, h: u64) -> u64
    requires { Leads p g h }
    ensures { LeadRoot p g h result }
{
    num_power::cube_root(p, num_power::mul(p, g, num_power::mul(p, h, h)))
}

// The inverse of 3 c².
fn thrice_inverse(p: u64, c: u64) -> u64
    requires { Leads p c c }
    ensures { ThriceInverse p c result }
{
    num_power::inverse(p, num_power::mul(p, 3, num_power::mul(p, c, c)))
}

// Both lists of an accepted field.
pub fn grow(p: u64, g: &[u64], h: &[u64], r: &mut [u16], w: &mut [u16])
    requires { Room p g.now h.now r.old w.old }
    ensures { Grown p g.now h.now r.old r.new w.new }
{
    let x = heads(p, g);
    let y = heads(p, h);
    let c = lead_root(p, wide(x[0]), wide(y[0]));
    let u = thrice_inverse(p, c);
    fill(p, &x, &y, c, u, r, w);
}
