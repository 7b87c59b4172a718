// The library's entry points, each under the name that C calls it by, on numbers and slices. The contracts are those of the functions behind
// them. Crate capi_c exports them.
#![tactic(auto)]

ghost use Rattle.field_open.specs.Refusal.{Refusal};
ghost use Rattle.field_open.specs.Padding.{unpad};
ghost use Rattle.field_series.specs.Answer.{Answer};
ghost use Rattle.door_check.specs.Answer.{Checks};
ghost use Rattle.std.specs.Prelude.{◌≡◌};
ghost use Rattle.book_check.specs.Book.{count};
ghost use Rattle.book_write.specs.Write.{body_from};
ghost use Rattle.book_place.specs.Place.{AskSays};
ghost use Rattle.book_begin.specs.Begin.{BeginSays};
ghost use Rattle.book_rows.specs.Rows.{RowsSays};
ghost use Rattle.book_parts.specs.Parts.{PrimeSays, PeriodSays, ListSays};
ghost use Rattle.door_rescale.specs.Rescale.{Rescales};
ghost use Rattle.door_sheet.specs.Sheet.{Sheet};
ghost use Rattle.door_transfer.specs.Transfer.{Transfers};
ghost use Rattle.capi.specs.Told.{OrderTells, StepTells, WalkTells, FromOrderTells, UnitTells, OneFieldTells};
ghost use Rattle.capi.specs.Books.{CheckSays, WriteSays, AddSays, AttestSays};

use base_answers::number_of;
use walk_chain::End;
use walk_record::WalkRecord;

// The number of the first refusal of p, G, H; 0 where the field is accepted.
pub fn zaminuk_refusal(p: u64, g: &[u64], h: &[u64]) -> u32
    ensures { Refusal p (unpad g.now) (unpad h.now) result }
{
    number_of(field_open::refusal(p, g, h))
}

// The first coefficients of r and of w, highest power first, into two slices of equal length, at most 4,096.
pub fn zaminuk_series(p: u64, g: &[u64], h: &[u64], r: &mut [u16], w: &mut [u16]) -> u32
    ensures { Answer p (unpad g.now) (unpad h.now) r.old w.old r.new w.new result }
{
    number_of(field_series::series(p, g, h, r, w))
}

// The basis of the order, into a lent record.
pub fn zaminuk_order(p: u64, g: &[u64], h: &[u64], rows: &mut [u16; 119]) -> u32
    ensures { OrderTells p (unpad g.now) (unpad h.now) rows.old result rows.new }
{
    match door_order::order(p, g, h) {
        Ok(b) => {
            *rows = b;
            0
        }
        Err(k) => u32::from(k),
    }
}

// Whether the rows are the scaled reduced basis of a reduced ideal: 0, or the refusal.
pub fn zaminuk_check(p: u64, g: &[u64], h: &[u64], rows: &[u16; 119]) -> u32
    ensures { Checks p (unpad g.now) (unpad h.now) rows.now result }
{
    number_of(door_check::check(p, g, h, *rows))
}

// One step, in place: the next record, and the degree of the m divided by, 0 beside a refusal.
pub fn zaminuk_step(p: u64, g: &[u64], h: &[u64], rows: &mut [u16; 119], degree: &mut u64) -> u32
    ensures { StepTells p (unpad g.now) (unpad h.now) rows.old result degree.new rows.new }
{
    match door_step::step(p, g, h, *rows) {
        Ok(s) => {
            let b = s.basis;
            *degree = s.degree;
            *rows = b;
            0
        }
        Err(k) => {
            *degree = 0;
            u32::from(k)
        }
    }
}

// A walk of at most `budget` steps, in place: the last record, also where the budget was spent (10); steps and degree sum, 0 beside the
// other refusals.
pub fn zaminuk_walk(
    p: u64,
    g: &[u64],
    h: &[u64],
    budget: u64,
    rows: &mut [u16; 119],
    steps: &mut u64,
    sum: &mut u64,
) -> u32
    ensures { WalkTells p (unpad g.now) (unpad h.now) budget rows.old result steps.new sum.new rows.new }
{
    match door_walk::walk(p, g, h, *rows, budget) {
        Ok(o) => {
            let n = match o.end {
                End::Closed => 0,
                End::Spent => 10,
            };
            capi_walk::put(n, o.steps, o.sum, o.basis, rows, steps, sum)
        }
        Err(k) => capi_walk::put(u32::from(k), 0, 0, [0; 119], rows, steps, sum),
    }
}

// At most `budget` steps from each of up to 64 walk records, in place: 0, or 14 with nothing changed.
pub fn zaminuk_sheet(records: &mut [WalkRecord], budget: u64) -> u32
    ensures { Sheet records.old budget result records.new }
{
    number_of(door_sheet::sheet(records, budget))
}

// The walk of at most `budget` steps from the order: its refusal; period and regulator, 0 beside a refusal.
pub fn zaminuk_from_order(
    p: u64,
    g: &[u64],
    h: &[u64],
    budget: u64,
    period: &mut u64,
    regulator: &mut u64,
) -> u32
    ensures { FromOrderTells p (unpad g.now) (unpad h.now) budget result period.new regulator.new }
{
    match door_period::from_order(p, g, h, budget) {
        Ok(c) => {
            *period = c.period.0;
            *regulator = c.regulator.0;
            0
        }
        Err(k) => {
            *period = 0;
            *regulator = 0;
            u32::from(k)
        }
    }
}

// The unit under a convention, 1 for E0 monic and 2 for norm 1, and its inverse into the first of two lent slices of one length; period and
// regulator, 0 beside a refusal.
pub fn zaminuk_unit_scaled(
    p: u64,
    g: &[u64],
    h: &[u64],
    budget: u64,
    convention: u32,
    rows: &mut [u16],
    scratch: &mut [u16],
    period: &mut u64,
    regulator: &mut u64,
) -> u32
    ensures { UnitTells convention p (unpad g.now) (unpad h.now) budget rows.old scratch.old result
        period.new regulator.new rows.new scratch.new }
{
    match door_unit::unit_scaled(p, g, h, budget, convention, rows, scratch) {
        Ok(m) => {
            *period = m.period.0;
            *regulator = m.regulator.0;
            0
        }
        Err(k) => {
            *period = 0;
            *regulator = 0;
            u32::from(k)
        }
    }
}

// The same under convention 1.
pub fn zaminuk_unit(
    p: u64,
    g: &[u64],
    h: &[u64],
    budget: u64,
    rows: &mut [u16],
    scratch: &mut [u16],
    period: &mut u64,
    regulator: &mut u64,
) -> u32
    ensures { UnitTells 1 p (unpad g.now) (unpad h.now) budget rows.old scratch.old result
        period.new regulator.new rows.new scratch.new }
{
    zaminuk_unit_scaled(p, g, h, budget, 1, rows, scratch, period, regulator)
}

// The rows of a unit and its inverse, carried over in place from one convention to another.
pub fn zaminuk_rescale(p: u64, g: &[u64], h: &[u64], from: u32, to: u32, rows: &mut [u16]) -> u32
    ensures { Rescales p (unpad g.now) (unpad h.now) from to rows.old result rows.new }
{
    number_of(door_rescale::rescale(p, g, h, from, to, rows))
}

// Whether two pairs over one p are of one field: 1 or 0, and 0 beside a refusal of the first pair or of the second.
pub fn zaminuk_one_field(
    p: u64,
    g: &[u64],
    h: &[u64],
    g2: &[u64],
    h2: &[u64],
    same: &mut u64,
) -> u32
    ensures { OneFieldTells p (unpad g.now) (unpad h.now) (unpad g2.now) (unpad h2.now) result same.new }
{
    match door_compare::compare(p, g, h, g2, h2) {
        Ok(b) => {
            *same = if b { 1 } else { 0 };
            0
        }
        Err(k) => {
            *same = 0;
            u32::from(k)
        }
    }
}

// The rows of a unit and its inverse, carried over in place from the pair G, H to a pair of the same field.
pub fn zaminuk_transfer(
    p: u64,
    g: &[u64],
    h: &[u64],
    g2: &[u64],
    h2: &[u64],
    rows: &mut [u16],
) -> u32
    ensures { Transfers p (unpad g.now) (unpad h.now) (unpad g2.now) (unpad h2.now) rows.old result rows.new }
{
    number_of(door_transfer::transfer(p, g, h, g2, h2, rows))
}

// Checks a book: five numbers, the refusal, the inner reason, its entry, its other number, the result.
pub fn zaminuk_book_check(book: &[u8], said: &mut [u64; 5])
    ensures { CheckSays book.now said.new }
{
    let a = book_check::check(book);
    let o = book_told::answer_row(a);
    *said = o;
}

// The number of bodies that a book's contents say it has.
pub fn zaminuk_book_bodies(book: &[u8]) -> usize
    ensures { result ≡ count book.now }
{
    book_contents::bodies(book)
}

// Asks for entry i: where its part of the book starts, and how long it is.
pub fn zaminuk_book_ask(
    book: &[u8],
    i: usize,
    start: &mut usize,
    size: &mut usize,
    said: &mut [u64; 5],
)
    ensures { AskSays book.now i start.new size.new said.new }
{
    book_place::ask(book, i, start, size, said);
}

// Attests entry i: the result is 1 for yes.
pub fn zaminuk_book_attest(book: &[u8], i: usize, said: &mut [u64; 5])
    ensures { AttestSays book.now i said.new }
{
    let a = book_attest::attest(book, i);
    let o = book_told::attest_row(a);
    *said = o;
}

// The prime of a body: the result.
pub fn zaminuk_body_prime(body: &[u8], said: &mut [u64; 5])
    ensures { PrimeSays body.now said.new }
{
    let o = book_parts::prime(body);
    *said = o;
}

// The period of a body: the result.
pub fn zaminuk_body_period(body: &[u8], said: &mut [u64; 5])
    ensures { PeriodSays body.now said.new }
{
    let o = book_parts::period(body);
    *said = o;
}

// List k of a body, 0 to 4 for G, H, E0, E1, E2, into the front of a lent slice; the result is its length.
pub fn zaminuk_body_list(body: &[u8], k: usize, out: &mut [u64], said: &mut [u64; 5])
    ensures { ListSays body.now k out.old out.new said.new }
{
    let o = book_parts::list(body, k, out);
    *said = o;
}

// Begins a book, one with no bodies, at the front of a lent slice; the result is its length.
pub fn zaminuk_book_begin(out: &mut [u8], said: &mut [u64; 5])
    ensures { BeginSays out.old out.new said.new }
{
    let o = book_begin::begin(out);
    *said = o;
}

// Writes a body into a lent slice; the result is its length.
pub fn zaminuk_book_write(
    p: u64,
    g: &[u64],
    h: &[u64],
    period: u64,
    a: &[u64],
    b: &[u64],
    c: &[u64],
    out: &mut [u8],
    said: &mut [u64; 5],
)
    ensures { WriteSays (body_from p (unpad g.now) (unpad h.now) period a.now b.now c.now) out.old out.new said.new }
{
    let w = book_write::write_body(p, g, h, base_answers::Period(period), a, b, c, out);
    let o = book_numbers::wrote_row(w.map_err(book_numbers::Unwritten::from));
    *said = o;
}

// Writes a body from the six rows of a unit and its inverse into a lent slice; the result is its length.
pub fn zaminuk_book_write_rows(
    p: u64,
    g: &[u64],
    h: &[u64],
    period: u64,
    rows: &[u16],
    out: &mut [u8],
    said: &mut [u64; 5],
)
    ensures { RowsSays p (unpad g.now) (unpad h.now) period rows.now out.old out.new said.new }
{
    let o = book_rows::write_rows(p, g, h, base_answers::Period(period), rows, out);
    *said = o;
}

// Adds a body to the book of length n at the front of a lent slice; the result is the new length.
pub fn zaminuk_book_add(out: &mut [u8], n: usize, body: &[u8], said: &mut [u64; 5])
    ensures { AddSays out.old n body.now out.new said.new }
{
    let a = book_add::add(out, n, body);
    let o = book_told::added_row(a);
    *said = o;
}
