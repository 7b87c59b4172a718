// The walk along the chain of minima, from a record; it asks for an accepted field. The doors are crates door_walk and door_period.
#![tactic(auto)]

ghost use Rattle.walk_chain.specs.Going.{WalkOnRowsAsks, Gone};
ghost use Rattle.walk_chain.specs.InField.{WalkInFieldAsks, WalkInFieldGives};
ghost use Rattle.walk_chain.specs.Told.{gone};

use step_next::step_on_rows;
use walk_closed::is_closed;

// How a walk ends: it closes, or its budget is spent, which is refusal 10 and can be taken up again.
#[derive(Clone, Copy, PartialEq, Eq)]
pub enum End {
    Closed,
    Spent,
}

// A walk: how it ended, the steps taken, the sum of the degrees passed, the last basis.
#[derive(Clone, Copy)]
pub struct Walked {
    pub end: End,
    pub steps: u64,
    pub sum: u64,
    pub basis: [u16; 119],
}

// At most `budget` steps from a record; what a field keeps from step to step is lent.
pub fn walk_on_rows(
    p: u64,
    g: &[u64; 32],
    h: &[u64; 32],
    gh: &[u64; 32],
    dr: usize,
    dw: usize,
    r: &[u64; 32],
    w: &[u64; 32],
    from: [u16; 119],
    budget: u64,
) -> Walked
    requires { WalkOnRowsAsks p g.now h.now gh.now dr dw r.now w.now from budget }
    ensures { Gone p g.now h.now gh.now dr dw r.now w.now from budget (gone result) }
{
    let mut b = from;
    let mut sum: u64 = 0;
    for steps in 0..budget {
        let o = step_on_rows(p, g, h, gh, dr, dw, r, w, &b);
        let d = o.degree;
        sum += d;
        b = o.basis;
        if is_closed(p, &b) {
            return Walked {
                end: End::Closed,
                steps: steps + 1,
                sum,
                basis: b,
            };
        }
    }
    Walked {
        end: End::Spent,
        steps: budget,
        sum,
        basis: b,
    }
}

// The walk in an opened field.
pub fn walk_in_field(c: field_series::OpenedField, b: [u16; 119], budget: u64) -> Walked
    requires { WalkInFieldAsks c b budget }
    ensures { WalkInFieldGives c b budget (gone result) }
{
    let f = &c.field;
    walk_on_rows(f.p, &f.g, &f.h, &f.gh, f.dr, f.dw, &c.r, &c.w, b, budget)
}
