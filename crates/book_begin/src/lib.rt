// Beginning a book of units: mark and contents of a book that has no bodies, into a lent slice.
#![tactic(auto)]

ghost use Rattle.book_begin.specs.Begin.{BeginSays};

// Begins a book at the front of a lent slice; five numbers say the answer, and the result is its length.
pub fn begin(out: &mut [u8]) -> [u64; 5]
    ensures { BeginSays out.old out.new result }
{
    if out.len() < 6 {
        return [11, 0, 0, 0, 0];
    }
    let n = book_bytes::copy_in(out, 0, b"PCF1\0\0");
    [0, 0, 0, 0, n as u64]
}
