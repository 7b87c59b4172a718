// What the check of a book, asking for an entry, adding and attesting answer, in document 01's numbers: five in a row, as crate book_numbers
// has them.
#![tactic(auto)]

ghost use Rattle.std.specs.Prelude.{◌≡◌};
ghost use Rattle.book_check.specs.Answer.{answer_says, request_says};
ghost use Rattle.book_add.specs.Add.{added_says};
ghost use Rattle.book_attest.specs.Attest.{attest_says};
ghost use Rattle.book_numbers.specs.Numbers.{numbers};

use book_judge::{BookRefusal, Reason};
use book_numbers::{Unwritten, reason_row, refusal_row};

// The answer of the check.
pub fn answer_row(a: Result<(), Reason>) -> [u64; 5]
    ensures { result ≡ numbers (answer_says a) }
{
    match a {
        Ok(()) => [0, 0, 0, 0, 0],
        Err(why) => reason_row(why),
    }
}

// The answer to asking for an entry.
pub fn request_row(a: Result<(), BookRefusal>) -> [u64; 5]
    ensures { result ≡ numbers (request_says a) }
{
    match a {
        Ok(()) => [0, 0, 0, 0, 0],
        Err(r) => refusal_row(r),
    }
}

// The answer of adding a body.
pub fn added_row(a: Result<usize, BookRefusal>) -> [u64; 5]
    ensures { result ≡ numbers (added_says a) }
{
    book_numbers::wrote_row(a.map_err(Unwritten::from))
}

// The answer of attesting an entry.
pub fn attest_row(a: Result<bool, BookRefusal>) -> [u64; 5]
    ensures { result ≡ numbers (attest_says a) }
{
    match a {
        Ok(true) => [0, 0, 0, 0, 1],
        Ok(false) => [0, 0, 0, 0, 0],
        Err(r) => refusal_row(r),
    }
}
