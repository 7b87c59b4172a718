// Attesting an entry of the book: its unit has a non-zero constant norm. specs/Attest.antt says what the answer means.
#![tactic(auto)]

ghost use Rattle.book_attest.specs.Attest.{attest_says, AttestTells};

use book_judge::BookRefusal;

// Attests entry i of a book: yes or no; 13 with the reason; 14.
pub fn attest(s: &[u8], i: usize) -> Result<bool, BookRefusal>
    ensures { AttestTells s.now i (attest_says result) }
{
    book_check::ask_answer(s, i)?;
    Ok(book_norm::constant_norm(book_contents::entry_bytes(s, i)))
}
