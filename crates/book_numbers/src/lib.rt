// What the functions of a book answer, in document 01's numbers: five in a row, the refusal, the inner reason, its entry, its other number,
// the result. Of reasons and refusals, and of lists and bodies written; the other answers are in crate book_told.
#![tactic(auto)]

ghost use Rattle.std.specs.Prelude.{◌≡◌};
ghost use Rattle.book_body.specs.Code.{got_says};
ghost use Rattle.book_judge.specs.Reasons.{reason_says, refusal_says};
ghost use Rattle.book_numbers.specs.Numbers.{numbers, writing_says};

use base_answers::Fault;
use book_judge::{BookRefusal, Reason};

// Why a body is not written or added: something is malformed, or the number of another refusal, whichever number that is.
#[derive(Clone, Copy)]
pub enum Unwritten {
    Malformed(Reason),
    Number(u32),
}

impl From<BookRefusal> for Unwritten {
    ghost use Rattle.book_numbers.specs.Numbers.{unwritten_of};

    ghost from_gives = { λ r u. u ≡ unwritten_of r };

    fn from(r: BookRefusal) -> Unwritten {
        match r {
            BookRefusal::Malformed(why) => Unwritten::Malformed(why),
            BookRefusal::Other(k) => Unwritten::Number(u32::from(k)),
        }
    }
}

// A reason in numbers.
pub fn reason_row(why: Reason) -> [u64; 5]
    ensures { result ≡ numbers (reason_says why) }
{
    match why {
        Reason::Mark => [13, 1, 0, 0, 0],
        Reason::Contents => [13, 2, 0, 0, 0],
        Reason::BodyRule(i) => [13, 3, i as u64, 0, 0],
        Reason::Field(i, n) => [13, 4, i as u64, n as u64, 0],
        Reason::Twice(i, j) => [13, 5, i as u64, j as u64, 0],
    }
}

// A refusal in numbers.
pub fn refusal_row(r: BookRefusal) -> [u64; 5]
    ensures { result ≡ numbers (refusal_says r) }
{
    match r {
        BookRefusal::Malformed(why) => reason_row(why),
        BookRefusal::Other(k) => [u32::from(k) as u64, 0, 0, 0, 0],
    }
}

// The answer to asking for a list of a body.
pub fn got_row(a: Result<usize, Fault>) -> [u64; 5]
    ensures { result ≡ numbers (got_says a) }
{
    match a {
        Ok(n) => [0, 0, 0, 0, n as u64],
        Err(k) => [u32::from(k) as u64, 0, 0, 0, 0],
    }
}

// The answer of writing a body, or of adding one.
pub fn wrote_row(a: Result<usize, Unwritten>) -> [u64; 5]
    ensures { result ≡ numbers (writing_says a) }
{
    match a {
        Ok(n) => [0, 0, 0, 0, n as u64],
        Err(Unwritten::Malformed(why)) => reason_row(why),
        Err(Unwritten::Number(k)) => [k as u64, 0, 0, 0, 0],
    }
}
