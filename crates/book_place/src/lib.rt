// Asking for an entry of a book by its place: where the part that it names starts, and how long it is.
#![tactic(auto)]

ghost use Rattle.book_place.specs.Place.{AskSays};

use book_contents::WIDTH;

// Asks for entry i: start and length of its part, 0 and 0 with a refusal; five numbers say the answer.
pub fn ask(book: &[u8], i: usize, start: &mut usize, size: &mut usize, said: &mut [u64; 5])
    ensures { AskSays book.now i start.new size.new said.new }
{
    let a = book_check::ask_answer(book, i);
    let o = book_told::request_row(a);
    if o[0] == 0 {
        *start = book_bytes::four(book, 6 + WIDTH * i);
        *size = book_bytes::four(book, 10 + WIDTH * i);
    } else {
        *start = 0;
        *size = 0;
    }
    *said = o;
}
