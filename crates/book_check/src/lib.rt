// The book of units, PCF1: a check of the whole book, and asking for an entry.
#![tactic(auto)]

ghost use Rattle.book_check.specs.Answer.{answer_says, request_says, Tells, AskTells, AskedPart};
ghost use Rattle.book_check.specs.Code.{EntryOfAsks, EntryTells};

use base_answers::Fault;
use book_contents::{bodies, entry_bytes, listed, marked};
use book_first::earlier;
use book_judge::{BookRefusal, Reason, judge};

// One entry of the book, after sound ones.
fn entry_of(s: &[u8], i: usize) -> Result<(), Reason>
    requires { EntryOfAsks s.now i }
    ensures { EntryTells s.now i result }
{
    let b = entry_bytes(s, i);
    judge(b, i)?;
    let j = earlier(s, b, i);
    if j < i {
        return Err(Reason::Twice(i, j));
    }
    Ok(())
}

// Checks a book: its first fault is the reason of 13.
pub fn check(s: &[u8]) -> Result<(), Reason>
    ensures { Tells s.now (answer_says result) }
{
    if !marked(s) {
        return Err(Reason::Mark);
    }
    if !listed(s) {
        return Err(Reason::Contents);
    }
    for i in 0..bodies(s) {
        entry_of(s, i)?;
    }
    Ok(())
}

// Whether entry i may be asked for: 13 with the book's reason, or 14 where it is not there.
pub fn ask_answer(s: &[u8], i: usize) -> Result<(), BookRefusal>
    ensures { AskTells s.now i (request_says result) }
{
    check(s)?;
    if i < bodies(s) {
        Ok(())
    } else {
        Err(BookRefusal::Other(Fault::OutOfRule))
    }
}

// The part of the book that entry i names, or the empty part at the book's start.
pub fn ask(s: &[u8], i: usize) -> &[u8]
    ensures { AskedPart s.now i result.now }
{
    match ask_answer(s, i) {
        Ok(()) => entry_bytes(s, i),
        Err(_) => &s[..0],
    }
}
