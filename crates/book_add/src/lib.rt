// Adding a finished body to a book of units in a lent slice.
#![tactic(auto)]

ghost use Rattle.book_add.specs.Add.{added_says, AddTells};

use base_answers::Fault;
use book_contents::{MOST, WIDTH};
use book_judge::BookRefusal;
use book_may::may_add;
use book_put::put_body;

// Adds a finished body to the book of length n that stands at the front of a lent slice: the book's new length; 14; 13 with the reason; 15;
// 11.
pub fn add(out: &mut [u8], n: usize, b: &[u8]) -> Result<usize, BookRefusal>
    ensures { AddTells out.old n b.now (added_says result) out.new }
{
    if n > out.len() {
        return Err(BookRefusal::Other(Fault::OutOfRule));
    }
    let c = may_add(&out[..n], b)?;
    let l = b.len();
    if l > MOST {
        return Err(BookRefusal::Other(Fault::NoRoom));
    }
    let size = n + WIDTH + l;
    if size > out.len() || size > MOST {
        return Err(BookRefusal::Other(Fault::NoRoom));
    }
    Ok(put_body(out, n, c, b))
}
