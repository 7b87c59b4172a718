// A walk record by value: a field, a basis of it, how far its walk has come, and its state. Here what is told of a record without its field.
#![tactic(auto)]

ghost use Rattle.std.specs.Prelude.{◌≡◌};
ghost use Rattle.base_answers.specs.Decides.{Decides};
ghost use Rattle.walk_record.specs.State as S;
ghost use Rattle.walk_record.specs.Record as R;

use base_answers::over_budget;

// G is the first `ng` entries of `g`, H the first `nh` of `h`; the basis is seven rows of 17 numbers. Laid out as C lays it out.
#[repr(C)]
#[derive(Clone, Copy)]
pub struct WalkRecord {
    pub p: u64,
    pub g: [u64; 32],
    pub ng: usize,
    pub h: [u64; 32],
    pub nh: usize,
    pub basis: [u16; 119],
    pub steps: u64,
    pub sum: u64,
    // a number, since C reads and writes it
    pub state: u32,
}

// Whether a record in this state is passed over: it is closed, or a refusal's own number.
pub fn passed_over(state: u32) -> bool
    ensures { Decides result (S.Passed state) }
{
    matches!(state, 1..=9 | 14 | 100)
}

// Whether a record that is not passed over is refused with 14.
pub fn unfit(r: WalkRecord) -> bool
    requires { S.Passed r.state → ⊥ }
    ensures { Decides result (R.Unfit r) }
{
    r.state != 0 || r.steps > 1000000000 || r.sum > 16 * r.steps
}

// How many entries of an array of 32 give a list, where n are told.
pub fn counted(n: usize) -> usize
    ensures { result ≡ R.counted n }
{
    if n > 32 { 0 } else { n }
}

// The record with another state.
pub fn marked(r: WalkRecord, number: u32) -> WalkRecord
    ensures { result ≡ R.marked r number }
{
    WalkRecord { state: number, ..r }
}

// The record with a walk from it put in: the last basis, steps and degrees added.
pub fn moved(r: WalkRecord, basis: [u16; 119], steps: u64, sum: u64, state: u32) -> WalkRecord
    requires { R.MoveAsks r steps sum }
    ensures { result ≡ R.moved r basis steps sum state }
{
    WalkRecord {
        basis,
        steps: r.steps + steps,
        sum: r.sum + sum,
        state,
        ..r
    }
}

// Whether a sheet of n records with this budget is refused.
pub fn beyond(n: usize, budget: u64) -> bool
    ensures { Decides result (R.Beyond n budget) }
{
    n > 64 || over_budget(budget)
}
