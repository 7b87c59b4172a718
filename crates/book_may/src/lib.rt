// Whether a body may be added to a book. specs/May.antt says what the verdict means.
#![tactic(auto)]

ghost use Rattle.book_may.specs.May.{VerdictTells};

use base_answers::Fault;
use book_judge::BookRefusal;

// May b be added to the book s? The number of bodies in the book; 13 with the reason; 15. The room is not looked at.
pub fn may_add(s: &[u8], b: &[u8]) -> Result<usize, BookRefusal>
    ensures { VerdictTells s.now b.now result }
{
    book_check::check(s)?;
    let c = book_contents::bodies(s);
    book_judge::judge(b, c)?;
    if book_first::earlier(s, b, c) < c {
        return Err(BookRefusal::Other(Fault::AlreadyIn));
    }
    Ok(c)
}
