// Sums of products of rows, into a lent row: products are gathered in 64 bits, row by row, and each coefficient is reduced once at the end.
// specs/Sums.antt has the contracts.
#![tactic(auto)]

ghost use Rattle.poly_sums.specs.Sums.{SignedAsks, Signed, LaidAsks, Laid, GatherAsks, Gathered, SettleAsks, Settled};

use num_mod::{Modulus, add_product, reduce, reduce_once};
use poly_rows::{Poly, Row};

// v, or - v mod p
fn signed(p: u64, minus: bool, v: u64) -> u64
    requires { SignedAsks p v }
    ensures { Signed p minus v result }
{
    if minus { reduce_once(p, p - v) } else { v }
}

// acc + v t^i y up to multiples of p, in place of acc.
fn laid(p: u64, v: u64, y: Poly, i: usize, acc: &mut Row)
    requires { LaidAsks p v y.row.now y.len i acc.old }
    ensures { Laid p v y.entry.row.now y.entry.len i acc.old acc.new }
{
    for j in 0..y.len {
        acc[i + j] = add_product(p, acc[i + j], v, y.row[j]);
    }
}

// acc + x y, or acc - x y, up to multiples of p, in place of acc.
pub fn gather(p: u64, minus: bool, x: Poly, y: Poly, acc: &mut Row)
    requires { GatherAsks p x.row.now x.len y.row.now y.len acc.old }
    ensures { Gathered p minus x.entry.row.now x.entry.len y.entry.row.now y.entry.len acc.old acc.new }
{
    for i in 0..x.len {
        let v = signed(p, minus, x.row[i]);
        laid(p, v, y, i, acc);
    }
}

// Each coefficient mod p, in place; those from t on are below p as they are.
pub fn settle(q: Modulus, acc: &mut Row, t: usize)
    requires { SettleAsks q acc.old t }
    ensures { Settled q.p acc.old acc.new }
{
    for k in 0..t {
        acc[k] = reduce(q, acc[k]);
    }
}
