// The rows of E scaled. specs/Monic.antt says what is asked and done.
#![tactic(auto)]

ghost use Rattle.unit_monic.specs.Monic.{MonicAsks, MonicMade};

use base_lists::wide;
use num_power::inverse;
use poly_long::scale;

// E scaled so that E0, of n coefficients, is monic.
pub fn monic(p: u64, c: usize, n: usize, rows: &mut [u16])
    requires { MonicAsks p c n rows.old }
    ensures { MonicMade p c n rows.old rows.new }
{
    let q = inverse(p, wide(rows[n - 1]));
    scale(p, q, &mut rows[0..c + c + c]);
}
