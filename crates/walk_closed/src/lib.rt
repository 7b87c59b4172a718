// The test at which a walk stops. specs/Closed.antt says what it tests.
#![tactic(auto)]

ghost use Rattle.walk_closed.specs.Closed.{IsClosedAsks, OnePart};

// Whether U = 1: the ideal is the whole order. U is the last row, from place 102 on.
pub fn is_closed(p: u64, b: &[u16; 119]) -> bool
    requires { IsClosedAsks p b.now }
    ensures { OnePart p b.now result }
{
    b[102] == 1 && b[103..].iter().all(|x| *x == 0)
}
