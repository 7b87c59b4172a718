// The book of units, PCF1: its mark, its contents, and the part that an entry names.
#![tactic(auto)]

ghost use Rattle.std.specs.Prelude.{◌≡◌, ◌<◌};
ghost use Rattle.base_answers.specs.Decides.{Decides};
ghost use Rattle.book_contents.specs.Contents.{Marked, Listed, count, part, Ready};

// The bytes of a contents entry: start and length.
pub const WIDTH: usize = 8;

// The most bytes that a book may have.
pub const MOST: usize = 65536;

// The mark: its bytes, and the file's length.
pub fn marked(s: &[u8]) -> bool
    ensures { Decides result (Marked s.now) }
{
    (6..=MOST).contains(&s.len()) && s.starts_with(b"PCF1")
}

// The contents.
pub fn listed(s: &[u8]) -> bool
    ensures { Decides result (Listed s.now) }
{
    let n = book_bytes::two(s, 4);
    let mut at = 6 + WIDTH * n;
    for i in 0..n {
        if book_bytes::four(s, 6 + WIDTH * i) != at {
            return false;
        }
        at += book_bytes::four(s, 10 + WIDTH * i);
    }
    at == s.len()
}

// The number of bodies.
pub fn bodies(s: &[u8]) -> usize
    ensures { (result ≡ count s.now) × (result < 65536) }
{
    book_bytes::two(s, 4)
}

// The part that entry i names.
pub fn entry_bytes(s: &[u8], i: usize) -> &[u8]
    requires { Ready s.now i }
    ensures { result.now ≡ part s.now i }
{
    let a = book_bytes::four(s, 6 + WIDTH * i);
    let l = book_bytes::four(s, 10 + WIDTH * i);
    &s[a..a + l]
}
