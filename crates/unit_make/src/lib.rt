// The unit of an opened field and its inverse, from the walk that closes. specs/Making.antt says what each part asks and does; the door is
// crate door_unit.
#![tactic(auto)]

ghost use Rattle.unit_make.specs.Making.{MultipliedAsks, Multiplies, StartedAsks, Starts, StepAndMultiplyAsks, Further, ProductAsks, ProductOf, MakeAsks, Making};

use field_series::OpenedField;
use poly_long::{clear, to_stored};
use step_next::{StepTaken, step_in_field};
use unit_finish::finished;

// E times m in place, n coefficients of each row; b is the record of m.
fn multiplied(f: OpenedField, c: usize, n: usize, b: [u16; 119], rows: &mut [u16], s: &mut [u16])
    requires { MultipliedAsks f c n b rows.old s.old }
    ensures { Multiplies f c n b rows.old s.old rows.new s.new }
{
    let k = f.field;
    let g = to_stored(&k.g);
    let h = to_stored(&k.h);
    let gh = to_stored(&k.gh);
    unit_rows::multiply_by_m(k.p, c, n, &g, &h, &gh, &b, rows, s);
}

// The step from the record b, and E times its m. E has degree d before.
fn step_and_multiply(
    f: OpenedField,
    c: usize,
    d: usize,
    b: [u16; 119],
    rows: &mut [u16],
    s: &mut [u16],
) -> StepTaken
    requires { StepAndMultiplyAsks f c d b rows.old s.old }
    ensures { Further f c d b rows.old s.old result rows.new s.new }
{
    let o = step_in_field(f, b);
    multiplied(f, c, d + (o.degree as usize) + 1, b, rows, s);
    o
}

// The product of the m passed in `steps` steps from the record b, where E is 1.
fn product(f: OpenedField, c: usize, from: [u16; 119], steps: u64, rows: &mut [u16], s: &mut [u16])
    requires { ProductAsks f c from steps rows.old s.old }
    ensures { ProductOf f c from steps rows.old s.old rows.new s.new }
{
    let mut b = from;
    let mut d: usize = 0;
    for i in 0..steps {
        let o = step_and_multiply(f, c, d, b, rows, s);
        d += o.degree as usize;
        b = o.basis;
    }
}

// Zeros, and 1 for E0.
fn started(rows: &mut [u16], s: &mut [u16])
    requires { StartedAsks rows.old }
    ensures { Starts rows.old s.old rows.new s.new }
{
    clear(rows);
    clear(s);
    rows[0] = 1;
}

// The unit of degree d that closes after `steps` steps from the order's record b, and its inverse.
pub fn make(
    f: OpenedField,
    b: [u16; 119],
    steps: u64,
    d: usize,
    c: usize,
    rows: &mut [u16],
    s: &mut [u16],
)
    requires { MakeAsks f b steps d c rows.old s.old }
    ensures { Making f b steps d c rows.old s.old rows.new s.new }
{
    started(rows, s);
    product(f, c, b, steps, rows, s);
    finished(f, c, d, rows, s);
}
