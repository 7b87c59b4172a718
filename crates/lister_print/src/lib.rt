// What the lister prints: a refusal or the unit behind its field.
#![tactic(auto)]

ghost use Rattle.std.specs.Prelude.{◌∷◌};
ghost use Rattle.base_lists.specs.Coefficients.{trim};
ghost use Rattle.base_lists.specs.Pieces.{Put, cut};
ghost use Rattle.text_put.specs.Print.{semicolon, number_text, line_text};
ghost use Rattle.lister_print.specs.Text.{unit_text, printed};

use base_answers::Cycle;

// A field of the answer that is a number.
fn put_count(out: &mut [u8], at: usize, n: u64) -> usize
    ensures { Put out.old at (semicolon ∷ number_text n) result out.new }
{
    let to = text_put::put_byte(out, at, b';');
    text_put::put_number(out, to, n)
}

// The unit behind p;G;H: period, regulator and rows.
fn put_unit(
    out: &mut [u8],
    at: usize,
    p: u64,
    g: &[u64],
    h: &[u64],
    cycle: Cycle,
    rows: &[u16; 6144],
) -> usize
    ensures { Put out.old at (unit_text (line_text p g.now h.now) cycle.period.0 cycle.regulator.0
        (trim (cut 0 1024 rows.now)) (trim (cut 1024 1024 rows.now)) (trim (cut 2048 1024 rows.now))) result out.new }
{
    let a = text_put::put_field(out, at, p, g, h);
    let b = put_count(out, a, cycle.period.0);
    let c = put_count(out, b, cycle.regulator.0);
    lister_rows::put_rows(out, c, rows)
}

// What `unit` answered, printed behind p;G;H: the unit, or the number of what is refused, whichever number that is.
pub fn put_made(
    out: &mut [u8],
    at: usize,
    p: u64,
    g: &[u64],
    h: &[u64],
    made: Result<Cycle, u32>,
    rows: &[u16; 6144],
) -> usize
    ensures { Put out.old at (printed (line_text p g.now h.now) made rows.now) result out.new }
{
    match made {
        Ok(cycle) => put_unit(out, at, p, g, h, cycle, rows),
        Err(n) => text_put::put_refused(out, at, n as u64),
    }
}
