// The first entry of a book that is of one field with a body. specs/Earliest.antt says what the functions ask and find.
#![tactic(auto)]

ghost use Rattle.book_body.specs.Body.{body_of};
ghost use Rattle.book_field.specs.Code.{pair_of};
ghost use Rattle.book_first.specs.Earliest.{EarlierAsks, FirstOfAsks, Earliest};

// The first of the entries before `end` that is of the field p, G, H, or `end`.
fn first_of(s: &[u8], p: u64, g: &[u64], h: &[u64], end: usize) -> usize
    requires { FirstOfAsks s.now p g.now h.now end }
    ensures { Earliest s.now (pair_of p g.now h.now) end result }
{
    for j in 0..end {
        if book_field::of_field(p, g, h, book_contents::entry_bytes(s, j)) {
            return j;
        }
    }
    // `end` for none: `Earliest` says so, and both who ask compare.
    end
}

// The first of the entries before i that is of one field with the body b, or i. The body's own lists, which are short, are read once.
pub fn earlier(s: &[u8], b: &[u8], i: usize) -> usize
    requires { EarlierAsks s.now b.now i }
    ensures { Earliest s.now (body_of b.now) i result }
{
    let p = book_bytes::two(b, 0);
    let mut g: [u64; 13] = [0; 13];
    let mut h: [u64; 13] = [0; 13];
    let n = book_bytes::read_list(b, book_body::HEAD, book_body::LENGTHS, 0, &mut g);
    let m = book_bytes::read_list(b, book_body::HEAD, book_body::LENGTHS, 1, &mut h);
    first_of(s, p as u64, &g[..n], &h[..m], i)
}
