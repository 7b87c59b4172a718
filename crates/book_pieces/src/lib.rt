// The numbers and the lists of a body put into a lent slice. specs/Code.antt says which bytes they are.
#![tactic(auto)]

ghost use Rattle.base_lists.specs.Pieces.{Written};
ghost use Rattle.book_pieces.specs.Code.{Head, head_bytes, Lists, list_bytes, list_long};

// The numbers of a body: p, the lengths, the period.
pub fn put_head(out: &mut [u8], p: u64, g: u64, h: u64, a: u64, b: u64, c: u64, t: u64) -> usize
    requires { Head out.old p g h a b c t }
    ensures { Written out.old 0 (head_bytes p g h a b c t) 16 result out.new }
{
    let x0 = book_bytes::put_two(out, 0, p);
    let x1 = book_bytes::put_two(out, x0, g);
    let x2 = book_bytes::put_two(out, x1, h);
    let x3 = book_bytes::put_two(out, x2, a);
    let x4 = book_bytes::put_two(out, x3, b);
    let x5 = book_bytes::put_two(out, x4, c);
    book_bytes::put_four(out, x5, t)
}

// The five lists of a body, from `at` on.
pub fn put_lists(
    out: &mut [u8],
    at: usize,
    g: &[u64],
    h: &[u64],
    a: &[u64],
    b: &[u64],
    c: &[u64],
) -> usize
    requires { Lists out.old at g.now h.now a.now b.now c.now }
    ensures { Written out.old at (list_bytes g.now h.now a.now b.now c.now)
        (list_long g.now h.now a.now b.now c.now) result out.new }
{
    let x0 = book_bytes::put_list(out, at, g);
    let x1 = book_bytes::put_list(out, x0, h);
    let x2 = book_bytes::put_list(out, x1, a);
    let x3 = book_bytes::put_list(out, x2, b);
    book_bytes::put_list(out, x3, c)
}
