// A body put last into a book in a lent slice: the contents rewritten, the bodies moved up. specs/Code.antt says what the functions do.
#![tactic(auto)]

ghost use Rattle.std.specs.Prelude.{◌≡◌, ◌++◌, ℕ, suc, ◌+◌, ◌*◌, ◌≤◌, ◌<◌, length, drop};
ghost use Rattle.base_lists.specs.Pieces.{Written};
ghost use Rattle.book_bytes.specs.Bytes.{le};
ghost use Rattle.book_put.specs.Code.{new_length, line_end, lines, Place, new_bytes};

pub use book_contents::WIDTH;

// One contents entry at `at`; the place after it.
fn put_line(out: &mut [u8], at: usize, start: u64, len: u64) -> usize
    requires { (at + 8 ≤ length out.old) × (start < 4294967296) × (len < 4294967296) }
    ensures { Written out.old at (le 4 start ++ le 4 len) 8 result out.new }
{
    let x = book_bytes::put_four(out, at, start);
    book_bytes::put_four(out, x, len)
}

// The contents of c bodies that now start after one entry more; the place after them.
fn put_lines(out: &mut [u8], c: usize) -> usize
    requires { (6 + 8 * c ≤ length out.old) × (c < 65536) × ((i : ℕ) → i ≤ c → line_end out.old (6 + 8 * suc c) i ≤ 65544) }
    ensures { Written out.old 6 (lines out.old (6 + 8 * suc c) c) (8 * c) result out.new }
{
    let mut at = 6 + WIDTH * (c + 1);
    let mut o: usize = 6;
    for i in 0..c {
        let l = book_bytes::four(out, 10 + WIDTH * i);
        o = put_line(out, o, at as u64, l as u64);
        at += l;
    }
    o
}

// Puts the body b last into the book of c bodies and length n; the new length.
pub fn put_body(out: &mut [u8], n: usize, c: usize, b: &[u8]) -> usize
    requires { Place out.old n c b.now }
    ensures { (result ≡ new_length n b.now)
        × (out.new ≡ new_bytes out.old n c b.now ++ drop (new_length n b.now) out.old) }
{
    let end = book_bytes::lift(out, 6 + WIDTH * c, n, WIDTH);
    book_bytes::put_two(out, 4, (c + 1) as u64);
    let y = put_lines(out, c);
    put_line(out, y, (n + WIDTH) as u64, b.len() as u64);
    book_bytes::copy_in(out, end, b)
}
