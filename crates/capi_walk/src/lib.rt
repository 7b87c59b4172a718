// What a walk from a lent record answers, in place: the record where the first one was, the numbers where they are wanted.
#![tactic(auto)]

ghost use Rattle.capi_walk.specs.Puts.{Puts};

// The refusal n of a walk; its last record b into the lent one, also where the budget was spent (10); its steps l and degree sum d.
pub fn put(
    n: u32,
    l: u64,
    d: u64,
    b: [u16; 119],
    rows: &mut [u16; 119],
    steps: &mut u64,
    sum: &mut u64,
) -> u32
    ensures { Puts n l d b rows.old result steps.new sum.new rows.new }
{
    *steps = l;
    *sum = d;
    if n == 0 || n == 10 {
        *rows = b;
    }
    n
}
