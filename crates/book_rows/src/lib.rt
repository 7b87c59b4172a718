// Writing a body of the book from the rows of a unit, as `unit` leaves them in a lent slice.
#![tactic(auto)]

ghost use Rattle.std.specs.Prelude.{◌≤◌, length};
ghost use Rattle.book_write.specs.Write.{wrote_says, WriteTells};
ghost use Rattle.base_answers.specs.Limits.{Six};
ghost use Rattle.book_rows.specs.Rows.{body_of_rows, RowsSays};
ghost use Rattle.book_rows.specs.Code.{Widened};
ghost use Rattle.field_open.specs.Padding.{unpad};

use base_answers::Period;
use book_judge::BookRefusal;
use book_numbers::Unwritten;

// A row without the zeros at its end, into the front of a lent slice; its length.
fn widen(row: &[u16], out: &mut [u64]) -> usize
    requires { length row.now ≤ length out.old }
    ensures { Widened row.now out.old result out.new }
{
    let n = poly_long::size(row);
    for i in 0..n {
        out[i] = base_lists::wide(row[i]);
    }
    n
}

// Writes the body of the first three of six rows of c numbers.
fn put_rows(
    p: u64,
    g: &[u64],
    h: &[u64],
    period: Period,
    c: usize,
    rows: &[u16],
    out: &mut [u8],
) -> Result<usize, BookRefusal>
    requires { Six c rows.now }
    ensures { WriteTells (body_of_rows p (unpad g.now) (unpad h.now) period.0 c rows.now)
        out.old (wrote_says result) out.new }
{
    let d = c + c;
    let e = d + c;
    let mut e0: [u64; 4096] = [0; 4096];
    let mut e1: [u64; 4096] = [0; 4096];
    let mut e2: [u64; 4096] = [0; 4096];
    let n0 = widen(&rows[0..c], &mut e0);
    let n1 = widen(&rows[c..d], &mut e1);
    let n2 = widen(&rows[d..e], &mut e2);
    book_write::write_body(p, g, h, period, &e0[..n0], &e1[..n1], &e2[..n2], out)
}

// Writes a body: p, G, H, the period and the six rows of a unit and its inverse; five numbers say the answer.
pub fn write_rows(
    p: u64,
    g: &[u64],
    h: &[u64],
    period: Period,
    rows: &[u16],
    out: &mut [u8],
) -> [u64; 5]
    ensures { RowsSays p (unpad g.now) (unpad h.now) period.0 rows.now out.old out.new result }
{
    let n = rows.len();
    if base_answers::no_six_rows(n) {
        return match field_open::refusal(p, g, h) {
            Ok(()) => [14, 0, 0, 0, 0],
            Err(k) => [u32::from(k) as u64, 0, 0, 0, 0],
        };
    }
    let w = put_rows(p, g, h, period, n / 6, rows, out);
    book_numbers::wrote_row(w.map_err(Unwritten::from))
}
