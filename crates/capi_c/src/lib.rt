// The library for C: each function of crate capi exported under its name, with its clauses. A slice passes as pointer, then length.
#![tactic(auto)]

ghost use Rattle.field_open.specs.Refusal.{Refusal};
ghost use Rattle.field_open.specs.Padding.{unpad};
ghost use Rattle.field_series.specs.Answer.{Answer};
ghost use Rattle.door_check.specs.Answer.{Checks};
ghost use Rattle.std.specs.Prelude.{◌≡◌};
ghost use Rattle.book_check.specs.Book.{count};
ghost use Rattle.book_write.specs.Write.{body_from};
ghost use Rattle.book_place.specs.Place.{AskSays};
ghost use Rattle.book_begin.specs.Begin.{BeginSays};
ghost use Rattle.book_rows.specs.Rows.{RowsSays};
ghost use Rattle.book_parts.specs.Parts.{PrimeSays, PeriodSays, ListSays};
ghost use Rattle.door_rescale.specs.Rescale.{Rescales};
ghost use Rattle.door_sheet.specs.Sheet.{Sheet};
ghost use Rattle.door_transfer.specs.Transfer.{Transfers};
ghost use Rattle.capi.specs.Told.{OrderTells, StepTells, WalkTells, FromOrderTells, UnitTells, OneFieldTells};
ghost use Rattle.capi.specs.Books.{CheckSays, WriteSays, AddSays, AttestSays};

use walk_record::WalkRecord;

// The number of the first refusal of p, G, H; 0 where the field is accepted.
#[unsafe(no_mangle)]
pub extern "C" fn zaminuk_refusal(p: u64, g: &[u64], h: &[u64]) -> u32
    ensures { Refusal p (unpad g.now) (unpad h.now) result }
{
    capi::zaminuk_refusal(p, g, h)
}

// The first coefficients of r and of w, highest power first, into two slices of equal length, at most 4,096.
#[unsafe(no_mangle)]
pub extern "C" fn zaminuk_series(p: u64, g: &[u64], h: &[u64], r: &mut [u16], w: &mut [u16]) -> u32
    ensures { Answer p (unpad g.now) (unpad h.now) r.old w.old r.new w.new result }
{
    capi::zaminuk_series(p, g, h, r, w)
}

// The basis of the order, into a lent record.
#[unsafe(no_mangle)]
pub extern "C" fn zaminuk_order(p: u64, g: &[u64], h: &[u64], rows: &mut [u16; 119]) -> u32
    ensures { OrderTells p (unpad g.now) (unpad h.now) rows.old result rows.new }
{
    capi::zaminuk_order(p, g, h, rows)
}

// Whether the rows are the scaled reduced basis of a reduced ideal: 0, or the refusal.
#[unsafe(no_mangle)]
pub extern "C" fn zaminuk_check(p: u64, g: &[u64], h: &[u64], rows: &[u16; 119]) -> u32
    ensures { Checks p (unpad g.now) (unpad h.now) rows.now result }
{
    capi::zaminuk_check(p, g, h, rows)
}

// One step, in place: the next record, and the degree of the m divided by, 0 beside a refusal.
#[unsafe(no_mangle)]
pub extern "C" fn zaminuk_step(
    p: u64,
    g: &[u64],
    h: &[u64],
    rows: &mut [u16; 119],
    degree: &mut u64,
) -> u32
    ensures { StepTells p (unpad g.now) (unpad h.now) rows.old result degree.new rows.new }
{
    capi::zaminuk_step(p, g, h, rows, degree)
}

// A walk of at most `budget` steps, in place: the last record, also where the budget was spent (10); steps and degree sum, 0 beside the
// other refusals.
#[unsafe(no_mangle)]
pub extern "C" fn zaminuk_walk(
    p: u64,
    g: &[u64],
    h: &[u64],
    budget: u64,
    rows: &mut [u16; 119],
    steps: &mut u64,
    sum: &mut u64,
) -> u32
    ensures { WalkTells p (unpad g.now) (unpad h.now) budget rows.old result steps.new sum.new rows.new }
{
    capi::zaminuk_walk(p, g, h, budget, rows, steps, sum)
}

// At most `budget` steps from each of up to 64 walk records, in place: 0, or 14 with nothing changed.
#[unsafe(no_mangle)]
pub extern "C" fn zaminuk_sheet(records: &mut [WalkRecord], budget: u64) -> u32
    ensures { Sheet records.old budget result records.new }
{
    capi::zaminuk_sheet(records, budget)
}

// The walk of at most `budget` steps from the order: its refusal; period and regulator, 0 beside a refusal.
#[unsafe(no_mangle)]
pub extern "C" fn zaminuk_from_order(
    p: u64,
    g: &[u64],
    h: &[u64],
    budget: u64,
    period: &mut u64,
    regulator: &mut u64,
) -> u32
    ensures { FromOrderTells p (unpad g.now) (unpad h.now) budget result period.new regulator.new }
{
    capi::zaminuk_from_order(p, g, h, budget, period, regulator)
}

// The unit under a convention, 1 for E0 monic and 2 for norm 1, and its inverse into the first of two lent slices of one length; period and
// regulator, 0 beside a refusal.
#[unsafe(no_mangle)]
pub extern "C" fn zaminuk_unit_scaled(
    p: u64,
    g: &[u64],
    h: &[u64],
    budget: u64,
    convention: u32,
    rows: &mut [u16],
    scratch: &mut [u16],
    period: &mut u64,
    regulator: &mut u64,
) -> u32
    ensures { UnitTells convention p (unpad g.now) (unpad h.now) budget rows.old scratch.old result
        period.new regulator.new rows.new scratch.new }
{
    capi::zaminuk_unit_scaled(
        p, g, h, budget, convention, rows, scratch, period, regulator,
    )
}

// The same under convention 1.
#[unsafe(no_mangle)]
pub extern "C" fn zaminuk_unit(
    p: u64,
    g: &[u64],
    h: &[u64],
    budget: u64,
    rows: &mut [u16],
    scratch: &mut [u16],
    period: &mut u64,
    regulator: &mut u64,
) -> u32
    ensures { UnitTells 1 p (unpad g.now) (unpad h.now) budget rows.old scratch.old result
        period.new regulator.new rows.new scratch.new }
{
    capi::zaminuk_unit(p, g, h, budget, rows, scratch, period, regulator)
}

// The rows of a unit and its inverse, carried over in place from one convention to another.
#[unsafe(no_mangle)]
pub extern "C" fn zaminuk_rescale(
    p: u64,
    g: &[u64],
    h: &[u64],
    from: u32,
    to: u32,
    rows: &mut [u16],
) -> u32
    ensures { Rescales p (unpad g.now) (unpad h.now) from to rows.old result rows.new }
{
    capi::zaminuk_rescale(p, g, h, from, to, rows)
}

// Whether two pairs over one p are of one field: 1 or 0, and 0 beside a refusal of the first pair or of the second.
#[unsafe(no_mangle)]
pub extern "C" fn zaminuk_one_field(
    p: u64,
    g: &[u64],
    h: &[u64],
    g2: &[u64],
    h2: &[u64],
    same: &mut u64,
) -> u32
    ensures { OneFieldTells p (unpad g.now) (unpad h.now) (unpad g2.now) (unpad h2.now) result same.new }
{
    capi::zaminuk_one_field(p, g, h, g2, h2, same)
}

// The rows of a unit and its inverse, carried over in place from the pair G, H to a pair of the same field.
#[unsafe(no_mangle)]
pub extern "C" fn zaminuk_transfer(
    p: u64,
    g: &[u64],
    h: &[u64],
    g2: &[u64],
    h2: &[u64],
    rows: &mut [u16],
) -> u32
    ensures { Transfers p (unpad g.now) (unpad h.now) (unpad g2.now) (unpad h2.now) rows.old result rows.new }
{
    capi::zaminuk_transfer(p, g, h, g2, h2, rows)
}

// Checks a book: five numbers, the refusal, the inner reason, its entry, its other number, the result.
#[unsafe(no_mangle)]
pub extern "C" fn zaminuk_book_check(book: &[u8], said: &mut [u64; 5])
    ensures { CheckSays book.now said.new }
{
    capi::zaminuk_book_check(book, said);
}

// The number of bodies that a book's contents say it has.
#[unsafe(no_mangle)]
pub extern "C" fn zaminuk_book_bodies(book: &[u8]) -> usize
    ensures { result ≡ count book.now }
{
    capi::zaminuk_book_bodies(book)
}

// Asks for entry i: where its part of the book starts, and how long it is.
#[unsafe(no_mangle)]
pub extern "C" fn zaminuk_book_ask(
    book: &[u8],
    i: usize,
    start: &mut usize,
    size: &mut usize,
    said: &mut [u64; 5],
)
    ensures { AskSays book.now i start.new size.new said.new }
{
    capi::zaminuk_book_ask(book, i, start, size, said);
}

// Attests entry i: the result is 1 for yes.
#[unsafe(no_mangle)]
pub extern "C" fn zaminuk_book_attest(book: &[u8], i: usize, said: &mut [u64; 5])
    ensures { AttestSays book.now i said.new }
{
    capi::zaminuk_book_attest(book, i, said);
}

// The prime of a body: the result.
#[unsafe(no_mangle)]
pub extern "C" fn zaminuk_body_prime(body: &[u8], said: &mut [u64; 5])
    ensures { PrimeSays body.now said.new }
{
    capi::zaminuk_body_prime(body, said);
}

// The period of a body: the result.
#[unsafe(no_mangle)]
pub extern "C" fn zaminuk_body_period(body: &[u8], said: &mut [u64; 5])
    ensures { PeriodSays body.now said.new }
{
    capi::zaminuk_body_period(body, said);
}

// List k of a body, 0 to 4 for G, H, E0, E1, E2, into the front of a lent slice; the result is its length.
#[unsafe(no_mangle)]
pub extern "C" fn zaminuk_body_list(body: &[u8], k: usize, out: &mut [u64], said: &mut [u64; 5])
    ensures { ListSays body.now k out.old out.new said.new }
{
    capi::zaminuk_body_list(body, k, out, said);
}

// Begins a book, one with no bodies, at the front of a lent slice; the result is its length.
#[unsafe(no_mangle)]
pub extern "C" fn zaminuk_book_begin(out: &mut [u8], said: &mut [u64; 5])
    ensures { BeginSays out.old out.new said.new }
{
    capi::zaminuk_book_begin(out, said);
}

// Writes a body into a lent slice; the result is its length.
#[unsafe(no_mangle)]
pub extern "C" fn zaminuk_book_write(
    p: u64,
    g: &[u64],
    h: &[u64],
    period: u64,
    a: &[u64],
    b: &[u64],
    c: &[u64],
    out: &mut [u8],
    said: &mut [u64; 5],
)
    ensures { WriteSays (body_from p (unpad g.now) (unpad h.now) period a.now b.now c.now) out.old out.new said.new }
{
    capi::zaminuk_book_write(p, g, h, period, a, b, c, out, said);
}

// Writes a body from the six rows of a unit and its inverse into a lent slice; the result is its length.
#[unsafe(no_mangle)]
pub extern "C" fn zaminuk_book_write_rows(
    p: u64,
    g: &[u64],
    h: &[u64],
    period: u64,
    rows: &[u16],
    out: &mut [u8],
    said: &mut [u64; 5],
)
    ensures { RowsSays p (unpad g.now) (unpad h.now) period rows.now out.old out.new said.new }
{
    capi::zaminuk_book_write_rows(p, g, h, period, rows, out, said);
}

// Adds a body to the book of length n at the front of a lent slice; the result is the new length.
#[unsafe(no_mangle)]
pub extern "C" fn zaminuk_book_add(out: &mut [u8], n: usize, body: &[u8], said: &mut [u64; 5])
    ensures { AddSays out.old n body.now out.new said.new }
{
    capi::zaminuk_book_add(out, n, body, said);
}
