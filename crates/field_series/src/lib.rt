// The series of r and w: `series` writes them into lent slices; `open_with_series` opens a field and keeps their first 32 coefficients with
// it. Both refuse what they cannot do; specs/Answer.antt has their contracts. The filling itself is in crate field_fill.
#![tactic(auto)]

ghost use Rattle.std.specs.Prelude.{◌≡◌};
ghost use Rattle.base_answers.specs.Faults.{no_of};
ghost use Rattle.field_open.specs.Padding.{unpad};
ghost use Rattle.field_series.specs.Keeps.{Holding};
ghost use Rattle.field_series.specs.Answer.{Answer, Opening, Expands, told};

use base_answers::{Fault, over_longest};

// An opened field with the first 32 coefficients of r and of w, highest power first.
#[derive(Clone, Copy)]
pub struct OpenedField {
    pub field: field_open::Field,
    pub r: [u64; 32],
    pub w: [u64; 32],
}

// The first coefficients of r and of w into two lent slices of equal length.
pub fn series(p: u64, g: &[u64], h: &[u64], r: &mut [u16], w: &mut [u16]) -> Result<(), Fault>
    ensures { Answer p (unpad g.now) (unpad h.now) r.old w.old r.new w.new (no_of result) }
{
    field_open::refusal(p, g, h)?;
    if w.len() != r.len() || over_longest(r.len()) {
        return Err(Fault::OutOfRule);
    }
    let a = field_open::unpadded(g);
    let b = field_open::unpadded(h);
    field_fill::grow(p, &g[..a], &h[..b], r, w);
    Ok(())
}

fn widened(s: [u16; 32]) -> [u64; 32]
    ensures { result ≡ s }
{
    s.map(|x| u64::from(x))
}

// The opened field f with the first 32 coefficients of r and w.
fn with_series(p: u64, g: &[u64], h: &[u64], f: field_open::Field) -> OpenedField
    requires { Opening p g.now h.now f }
    ensures { Holding p g.now h.now result }
{
    let mut r: [u16; 32] = [0; 32];
    let mut w: [u16; 32] = [0; 32];
    field_fill::grow(p, g, h, &mut r, &mut w);
    OpenedField {
        field: f,
        r: widened(r),
        w: widened(w),
    }
}

// Opening with the first 32 coefficients of both series.
pub fn open_with_series(p: u64, g: &[u64], h: &[u64]) -> Result<OpenedField, Fault>
    ensures { Expands p (unpad g.now) (unpad h.now) (told result) }
{
    let f = field_open::open(p, g, h)?;
    let a = field_open::unpadded(g);
    let b = field_open::unpadded(h);
    Ok(with_series(p, &g[..a], &h[..b], f))
}
