// The rows of a unit carried over from one convention to another. specs/Rescale.antt says what the answer and the lent slice are; crate
// unit_check tests the rows, crate unit_scale turns them.
#![tactic(auto)]

ghost use Rattle.std.specs.Prelude.{◌≡◌, IfSome};
ghost use Rattle.std.specs.Option.{is_none};
ghost use Rattle.base_answers.specs.Faults.{no_of};
ghost use Rattle.field_open.specs.Padding.{unpad};
ghost use Rattle.field_series.specs.Keeps.{Known};
ghost use Rattle.unit_scale.specs.Scale.{numbered};
ghost use Rattle.door_rescale.specs.Rescale.{Rescales};
ghost use Rattle.door_rescale.specs.Test.{MisscaledAsks, Misscaled, Unfit};

use base_answers::{Fault, no_six_rows};
use field_series::OpenedField;
use unit_check::is_unit;
use unit_scale::{Convention, convention_of, factor};

// Do the rows not hold a unit of positive degree with its inverse, or is it not scaled by the convention?
fn misscaled(f: OpenedField, convention: Convention, c: usize, rows: &[u16]) -> bool
    requires { MisscaledAsks f (numbered convention) c rows.now }
    ensures { Misscaled f (numbered convention) c rows.now result }
{
    !is_unit(f, c, rows) || factor(f, convention, c, rows) != 1
}

// The convention to turn to; none where a number names no convention, or the length or the rows are out of their rule.
fn fit(f: OpenedField, from: u32, to: u32, rows: &[u16]) -> Option<Convention>
    requires { Known f }
    ensures rule { Unfit f from to rows.now (is_none result) }
    ensures target { IfSome result (λ k. numbered k ≡ to) }
{
    let k = convention_of(from)?;
    let l = convention_of(to)?;
    if no_six_rows(rows.len()) || misscaled(f, k, rows.len() / 6, rows) {
        return None;
    }
    Some(l)
}

// Turns the six rows of a unit that is scaled by the convention `from` into those of the same unit scaled by `to`, in place; a refusal leaves
// them as they are.
pub fn rescale(
    p: u64,
    g: &[u64],
    h: &[u64],
    from: u32,
    to: u32,
    rows: &mut [u16],
) -> Result<(), Fault>
    ensures { Rescales p (unpad g.now) (unpad h.now) from to rows.old (no_of result) rows.new }
{
    let f = field_series::open_with_series(p, g, h)?;
    match fit(f, from, to, rows) {
        Some(k) => {
            unit_scale::turn(f, k, rows.len() / 6, rows);
            Ok(())
        }
        None => Err(Fault::OutOfRule),
    }
}
