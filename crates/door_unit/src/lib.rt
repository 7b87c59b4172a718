// The unit of a field and its inverse, with all refusals. specs/Unit.antt says what the answer and the two lent slices are.
#![tactic(auto)]

ghost use Rattle.std.specs.Prelude.{◌≡◌, IfSome};
ghost use Rattle.std.specs.Option.{is_none};
ghost use Rattle.field_open.specs.Padding.{unpad};
ghost use Rattle.unit_scale.specs.Scale.{numbered};
ghost use Rattle.door_unit.specs.Unit.{Makes, told};
ghost use Rattle.door_unit.specs.Fit.{Unfit};
ghost use Rattle.door_unit.specs.Scaled.{MakeScaledAsks, MakesScaled};

use base_answers::{Cycle, Fault, Period, Regulator, no_six_rows, over_budget};
use field_series::OpenedField;
use unit_scale::{Convention, convention_of};
use walk_chain::End;

// The convention that the number names; none where it names none, or the lent lengths n and m or the budget are out of their rule.
fn fit(convention: u32, n: usize, m: usize, budget: u64) -> Option<Convention>
    ensures rule { Unfit convention n m budget (is_none result) }
    ensures named { IfSome result (λ k. numbered k ≡ convention) }
{
    let k = convention_of(convention)?;
    if n != m || no_six_rows(n) || over_budget(budget) {
        return None;
    }
    Some(k)
}

// The unit and its inverse, made with E0 monic and turned where another convention is asked for. A frame of its own bounds the stack.
#[inline(never)]
fn make_scaled(
    f: OpenedField,
    b: [u16; 119],
    steps: u64,
    d: usize,
    c: usize,
    convention: Convention,
    rows: &mut [u16],
    s: &mut [u16],
)
    requires { MakeScaledAsks f b steps d c (numbered convention) rows.old s.old }
    ensures { MakesScaled f b steps d c (numbered convention) rows.old s.old rows.new s.new }
{
    unit_make::make(f, b, steps, d, c, rows, s);
    match convention {
        Convention::Monic => {}
        Convention::Norm => unit_scale::turn(f, convention, c, rows),
    }
}

// The fundamental unit of the field p, G, H, scaled by a convention, and its inverse, by a walk of at most `budget` steps: six rows into the
// first slice. The chain is walked twice: refusal 11 must leave both slices as they were, and the degree is known only at the end of the walk.
pub fn unit_scaled(
    p: u64,
    g: &[u64],
    h: &[u64],
    budget: u64,
    convention: u32,
    rows: &mut [u16],
    scratch: &mut [u16],
) -> Result<Cycle, Fault>
    ensures { Makes convention p (unpad g.now) (unpad h.now) budget rows.old scratch.old (told result) rows.new scratch.new }
{
    let f = field_series::open_with_series(p, g, h)?;
    let Some(k) = fit(convention, rows.len(), scratch.len(), budget) else {
        return Err(Fault::OutOfRule);
    };
    let c = rows.len() / 6;
    let b = basis_field::order_basis(f);
    let o = walk_chain::walk_in_field(f, b, budget);
    match o.end {
        End::Spent => Err(Fault::NotClosing),
        End::Closed => {
            if c as u64 <= o.sum {
                return Err(Fault::NoRoom);
            }
            make_scaled(f, b, o.steps, o.sum as usize, c, k, rows, scratch);
            let made = Cycle {
                period: Period(o.steps),
                regulator: Regulator(o.sum / 2),
            };
            Ok(made)
        }
    }
}

// The same under convention 1: E0 is monic.
pub fn unit(
    p: u64,
    g: &[u64],
    h: &[u64],
    budget: u64,
    rows: &mut [u16],
    scratch: &mut [u16],
) -> Result<Cycle, Fault>
    ensures { Makes 1 p (unpad g.now) (unpad h.now) budget rows.old scratch.old (told result) rows.new scratch.new }
{
    unit_scaled(p, g, h, budget, 1, rows, scratch)
}
