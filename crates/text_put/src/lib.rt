// Bytes, numbers, lists and fields put into a lent slice, one after the other. Each function returns the place after what it put;
// what does not fit the slice is left out, and the place stops at the slice's end. Slice and place are two arguments, not a struct,
// since these functions are public.
#![tactic(auto)]

ghost use Rattle.std.specs.Prelude.{◌≡◌, [], ◌∷◌, ℕ, map, take};
ghost use Rattle.base_lists.specs.Pieces.{Put};
ghost use Rattle.text_put.specs.Print.{number_text, list_text, line_text, refused_text};

// What a list may hold: a number of its own width, written as one of 64 bits.
trait Entry: Copy {
    ghost number: { Self → ℕ };

    fn wide(self) -> u64
        ensures { result ≡ number self };
}

impl Entry for u16 {
    ghost number = { λ n. n };

    fn wide(self) -> u64 {
        u64::from(self)
    }
}

impl Entry for u64 {
    ghost number = { λ n. n };

    fn wide(self) -> u64 {
        self
    }
}

// One byte.
pub fn put_byte(out: &mut [u8], at: usize, b: u8) -> usize
    ensures { Put out.old at (b ∷ []) result out.new }
{
    if at < out.len() {
        out[at] = b;
        at + 1
    } else {
        at
    }
}

// The bytes of a text.
fn put_bytes(out: &mut [u8], at: usize, s: &[u8]) -> usize
    ensures { Put out.old at s.now result out.new }
{
    let mut to = at;
    for b in s {
        to = put_byte(out, to, *b);
    }
    to
}

// A number: its tens first, then its last digit.
pub fn put_number(out: &mut [u8], at: usize, n: u64) -> usize
    ensures { Put out.old at (number_text n) result out.new }
{
    let digit = (48 + n % 10) as u8;
    if n < 10 {
        return put_byte(out, at, digit);
    }
    let to = put_number(out, at, n / 10);
    put_byte(out, to, digit)
}

// The numbers of a slice, with commas.
fn put_all<T: Entry>(out: &mut [u8], at: usize, l: &[T]) -> usize
    ensures { Put out.old at (list_text (map T.number l.now)) result out.new }
{
    let Some((first, others)) = l.split_first() else {
        return at;
    };
    let mut to = put_number(out, at, first.wide());
    for x in others {
        to = put_byte(out, to, b',');
        to = put_number(out, to, x.wide());
    }
    to
}

// The first n numbers of a slice, with commas; all of them where it has fewer.
pub fn put_list(out: &mut [u8], at: usize, l: &[u16], n: usize) -> usize
    ensures { Put out.old at (list_text (take n l.now)) result out.new }
{
    put_all(out, at, &l[..n.min(l.len())])
}

// A field: p;G;H.
pub fn put_field(out: &mut [u8], at: usize, p: u64, g: &[u64], h: &[u64]) -> usize
    ensures { Put out.old at (line_text p g.now h.now) result out.new }
{
    let a = put_number(out, at, p);
    let b = put_byte(out, a, b';');
    let c = put_all(out, b, g);
    let d = put_byte(out, c, b';');
    put_all(out, d, h)
}

// The answer `refused n`, with its newline.
pub fn put_refused(out: &mut [u8], at: usize, n: u64) -> usize
    ensures { Put out.old at (refused_text n) result out.new }
{
    let word = put_bytes(out, at, b"refused ");
    let number = put_number(out, word, n);
    put_byte(out, number, b'\n')
}
