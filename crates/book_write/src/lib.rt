// Writing a body of the book into a lent slice.
#![tactic(auto)]

ghost use Rattle.std.specs.Prelude.{[]};
ghost use Rattle.base_answers.specs.Decides.{Decides};
ghost use Rattle.book_body.specs.Body.{Rule};
ghost use Rattle.field_open.specs.Padding.{unpad};
ghost use Rattle.book_write.specs.Write.{body_from, wrote_says, WriteTells};

use base_answers::{Fault, Period};
use book_judge::{BookRefusal, Reason};
use book_pieces::{put_head, put_lists};

// The body rule of values that the caller hands over. It does not look at G and H.
fn rule_of(p: u64, t: u64, a: &[u64], b: &[u64], c: &[u64]) -> bool
    ensures { Decides result (Rule (body_from p [] [] t a.now b.now c.now)) }
{
    (1..=1000000).contains(&t)
        && book_rule::unit_list(p, a)
        && book_rule::unit_list(p, b)
        && book_rule::unit_list(p, c)
        && book_rule::first_list(a.len(), a[a.len() - 1])
}

// Writes a body of these very lists: zeros at the end of G or H are a fault.
fn write_strict(
    p: u64,
    g: &[u64],
    h: &[u64],
    period: Period,
    a: &[u64],
    b: &[u64],
    c: &[u64],
    out: &mut [u8],
) -> Result<usize, BookRefusal>
    ensures { WriteTells (body_from p g.now h.now period.0 a.now b.now c.now)
        out.old (wrote_says result) out.new }
{
    field_open::strict_refusal(p, g, h)?;
    if !rule_of(p, period.0, a, b, c) {
        return Err(BookRefusal::Malformed(Reason::BodyRule(0)));
    }
    let (ng, nh, na, nb, nc) = (g.len(), h.len(), a.len(), b.len(), c.len());
    let size = 16 + ((((2 * ng + 2 * nh) + 2 * na) + 2 * nb) + 2 * nc);
    if size > out.len() {
        return Err(BookRefusal::Other(Fault::NoRoom));
    }
    let at = put_head(
        out, p, ng as u64, nh as u64, na as u64, nb as u64, nc as u64, period.0,
    );
    Ok(put_lists(out, at, g, h, a, b, c))
}

// Writes a body: p, G, H, the period and the rows E0, E1, E2; its length, a refusal 1 to 8 of the field, 13 (body rule, entry 0) or 11.
// The zeros at the end of G and H are not written.
pub fn write_body(
    p: u64,
    g: &[u64],
    h: &[u64],
    period: Period,
    a: &[u64],
    b: &[u64],
    c: &[u64],
    out: &mut [u8],
) -> Result<usize, BookRefusal>
    ensures { WriteTells (body_from p (unpad g.now) (unpad h.now) period.0 a.now b.now c.now)
        out.old (wrote_says result) out.new }
{
    let n = field_open::unpadded(g);
    let m = field_open::unpadded(h);
    write_strict(p, &g[..n], &h[..m], period, a, b, c, out)
}
