// A body of the book: its parts for callers who read.
#![tactic(auto)]

ghost use Rattle.std.specs.Prelude.{◌≡◌};
ghost use Rattle.book_body.specs.Body.{body_of};
ghost use Rattle.book_body.specs.Code.{got_says, ListTells};

use base_answers::{Fault, Period};

// The bytes before the lists, and where among them the lists' lengths stand.
pub const HEAD: usize = 16;

pub const LENGTHS: usize = 2;

// The prime of a body.
pub fn prime_of(s: &[u8]) -> u64
    ensures { result ≡ (body_of s.now).p }
{
    book_bytes::two(s, 0) as u64
}

// The period of a body.
pub fn period_of(s: &[u8]) -> Period
    ensures { result.0 ≡ (body_of s.now).period }
{
    Period(book_bytes::four(s, 12) as u64)
}

// List k of a body, 0 to 4 for G, H, E0, E1, E2, into the front of a lent slice; its length. There may be no such list (14), or too little
// room (11).
pub fn list_of(s: &[u8], k: usize, out: &mut [u64]) -> Result<usize, Fault>
    ensures { ListTells s.now k out.old (got_says result) out.new }
{
    if k > 4 {
        return Err(Fault::OutOfRule);
    }
    let n = book_bytes::two(s, LENGTHS + 2 * k);
    if n > out.len() {
        return Err(Fault::NoRoom);
    }
    Ok(book_bytes::read_list(s, HEAD, LENGTHS, k, out))
}
