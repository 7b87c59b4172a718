// The parts of a body for callers who read: the body is checked first, and its fault told as that of entry 0.
#![tactic(auto)]

ghost use Rattle.book_parts.specs.Parts.{PrimeSays, PeriodSays, ListSays};

use book_judge::judge;
use book_numbers::{got_row, reason_row};

// The prime of a body, as the result in five numbers.
pub fn prime(s: &[u8]) -> [u64; 5]
    ensures { PrimeSays s.now result }
{
    match judge(s, 0) {
        Ok(()) => [0, 0, 0, 0, book_body::prime_of(s)],
        Err(why) => reason_row(why),
    }
}

// The period of a body, as the result in five numbers.
pub fn period(s: &[u8]) -> [u64; 5]
    ensures { PeriodSays s.now result }
{
    match judge(s, 0) {
        Ok(()) => [0, 0, 0, 0, book_body::period_of(s).0],
        Err(why) => reason_row(why),
    }
}

// List k of a body into the front of a lent slice; its length is the result in five numbers.
pub fn list(s: &[u8], k: usize, out: &mut [u64]) -> [u64; 5]
    ensures { ListSays s.now k out.old out.new result }
{
    match judge(s, 0) {
        Ok(()) => got_row(book_body::list_of(s, k, out)),
        Err(why) => reason_row(why),
    }
}
