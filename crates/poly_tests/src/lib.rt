// Tests of lists of stored coefficients (crate poly_long). specs/Tests.antt says what each decides.
#![tactic(auto)]

ghost use Rattle.std.specs.Prelude.{◌<◌, length};
ghost use Rattle.base_answers.specs.Decides.{Decides};
ghost use Rattle.poly_tests.specs.Tests.{Below, Constant, Longer};

use poly_long::size;

// Is every number below p?
pub fn below(p: u64, rows: &[u16]) -> bool
    requires { 0 < p }
    ensures { Decides result (Below p rows.now) }
{
    rows.iter().all(|v| u64::from(*v) < p)
}

// Is x the number k and zeros after it?
pub fn constant(k: u16, x: &[u16]) -> bool
    requires { 0 < length x.now }
    ensures { Decides result (Constant k x.now) }
{
    size(x) <= 1 && x[0] == k
}

// Is x longer than y without the zeros at their ends?
pub fn longer(x: &[u16], y: &[u16]) -> bool
    ensures { Decides result (Longer x.now y.now) }
{
    size(x) > size(y)
}
