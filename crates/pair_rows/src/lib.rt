// Parts of a slice exchanged and multiplied; the six rows of a unit times their factors. specs/Code.antt says what the functions do.
#![tactic(auto)]

ghost use Rattle.pair_rows.specs.Code.{ExchangeAsks, Exchanged, PartAsks, Part, MultipliedAsks, Multiplied};

use poly_long::scale;

// The c numbers from place a on and the c numbers from place b on change places.
pub fn exchange(rows: &mut [u16], a: usize, b: usize, c: usize)
    requires { ExchangeAsks a b c rows.old }
    ensures { Exchanged a b c rows.old rows.new }
{
    let (x, y) = rows.split_at_mut(b);
    x[a..a + c].swap_with_slice(&mut y[..c]);
}

// The c numbers from place at on times k.
fn part(p: u64, k: u64, at: usize, c: usize, rows: &mut [u16])
    requires { PartAsks p k at c rows.old }
    ensures { Part p k at c rows.old rows.new }
{
    let to = at + c;
    scale(p, k, &mut rows[at..to]);
}

// E1 and F1 times x, E2 and F2 times y.
pub fn multiplied(p: u64, x: u64, y: u64, c: usize, rows: &mut [u16])
    requires { MultipliedAsks p x y c rows.old }
    ensures { Multiplied p x y c rows.old rows.new }
{
    let c2 = c + c;
    let f1 = c2 + c2;
    let f2 = f1 + c;
    part(p, x, c, c, rows);
    part(p, y, c2, c, rows);
    part(p, x, f1, c, rows);
    part(p, y, f2, c, rows);
}
