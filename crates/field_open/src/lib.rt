// Opening a field: the refusals 1 to 8, in the table's order, and what the layers above need of a field that is accepted.
// specs/Refusal.antt has the table, specs/Padding.antt the lists as callers give them, specs/Opening.antt the contract of `open`.
#![tactic(auto)]

ghost use Rattle.base_answers.specs.Faults.{no_of};
ghost use Rattle.base_answers.specs.Stage.{End};
ghost use Rattle.field_open.specs.Refusal.{Rows12, Rows36, Rows78, Refusal, Accepted};
ghost use Rattle.field_open.specs.Padding.{unpad, Unpadded};
ghost use Rattle.field_open.specs.Parts.{ListLength, Shaped};
ghost use Rattle.field_open.specs.Opening.{Held, Opens, told};

use base_answers::Fault;

const LONGEST: usize = 13;

const ENTRIES: usize = 32;

const HIGHEST: usize = 16;

// An opened field: G, H and G·H as rows, the degrees of r and w.
#[derive(Clone, Copy)]
pub struct Field {
    pub p: u64,
    pub g: [u64; 32],
    pub h: [u64; 32],
    pub gh: [u64; 32],
    pub dr: usize,
    pub dw: usize,
}

// How many numbers at the front of s are the list that it stands for, without the zeros at its end; 0 where it has over 32 entries.
pub fn unpadded(s: &[u64]) -> usize
    ensures { Unpadded s.now result }
{
    base_lists::unpadded(ENTRIES, s)
}

// How many coefficients s has, or 0: it is no list of coefficients. Zeros at its end are not passed over.
pub fn list_length(p: u64, s: &[u64]) -> usize
    ensures { ListLength p s.now result }
{
    base_lists::list_length(LONGEST, p, s)
}

// 1 and 2.
fn check_p(p: u64) -> Result<(), Fault>
    ensures { Rows12 p End (no_of result) }
{
    if p < 5 || !num_prime::is_prime(p) {
        return Err(Fault::NotPrime);
    }
    if p % 3 == 1 {
        return Err(Fault::OneModThree);
    }
    Ok(())
}

// 3 to 6. The degree is the number of coefficients less 1.
fn check_lists(p: u64, g: &[u64], h: &[u64]) -> Result<(), Fault>
    ensures { Rows36 p g.now h.now End (no_of result) }
{
    let lg = list_length(p, g);
    if lg == 0 {
        return Err(Fault::BadList);
    }
    let lh = list_length(p, h);
    if lh == 0 {
        return Err(Fault::BadList);
    }
    let d = lg - 1;
    let e = lh - 1;
    if d + e == 0 {
        return Err(Fault::BothConstant);
    }
    if d + e > HIGHEST {
        return Err(Fault::SumTooLarge);
    }
    if d % 3 != e % 3 {
        return Err(Fault::NotThirds);
    }
    Ok(())
}

// 7 and 8.
fn check_factors(p: u64, g: &[u64], h: &[u64]) -> Result<(), Fault>
    requires { Shaped p g.now h.now }
    ensures { Rows78 p g.now h.now (no_of result) }
{
    let x = poly_rows::from_list(g);
    let y = poly_rows::from_list(h);
    let free = poly_factors::both_free(p, &x, &y);
    let apart = poly_factors::coprime(p, &x, &y);
    field_factors::first_factor(free, apart)
}

// The first refusal of p, G, H, where zeros at the end of a list are a fault, as in a book.
pub fn strict_refusal(p: u64, g: &[u64], h: &[u64]) -> Result<(), Fault>
    ensures { Refusal p g.now h.now (no_of result) }
{
    check_p(p)?;
    check_lists(p, g, h)?;
    check_factors(p, g, h)
}

// The first refusal of p, G, H as a caller gives them: zeros above the coefficients are passed over.
pub fn refusal(p: u64, g: &[u64], h: &[u64]) -> Result<(), Fault>
    ensures { Refusal p (unpad g.now) (unpad h.now) (no_of result) }
{
    let a = unpadded(g);
    let b = unpadded(h);
    strict_refusal(p, &g[..a], &h[..b])
}

// The field of p, G, H that are accepted.
fn field_of(p: u64, g: &[u64], h: &[u64]) -> Field
    requires { Accepted p g.now h.now }
    ensures { Held p g.now h.now result }
{
    let lg = list_length(p, g);
    let lh = list_length(p, h);
    let d = lg - 1;
    let e = lh - 1;
    let x = poly_rows::from_list(g);
    let y = poly_rows::from_list(h);
    let z = poly_rows::mul(p, &x, &y);
    Field {
        p: p,
        g: x,
        h: y,
        gh: z,
        dr: (d + 2 * e) / 3,
        dw: (2 * d + e) / 3,
    }
}

// The opened field of p, G, H, or the first refusal.
pub fn open(p: u64, g: &[u64], h: &[u64]) -> Result<Field, Fault>
    ensures { Opens p (unpad g.now) (unpad h.now) (told result) }
{
    refusal(p, g, h)?;
    let a = unpadded(g);
    let b = unpadded(h);
    Ok(field_of(p, &g[..a], &h[..b]))
}
