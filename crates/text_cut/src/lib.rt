// The input taken apart into lines, whatever the pieces in which it arrives; and a byte found in a text.
#![tactic(auto)]

ghost use Rattle.std.specs.Prelude.{◌≡◌, [], ◌∷◌, ◌+◌, length, drop};
ghost use Rattle.text_cut.specs.Pieces.{until};
ghost use Rattle.text_cut.specs.Tells.{CutTells, Carried};

// What a piece of the input has from a place on.
#[derive(Clone, Copy)]
pub enum Step {
    // a whole line, so many bytes of it kept, and the place after its newline
    Whole(usize, usize),
    // the end of a line that is too long, and the place after its newline
    Broken(usize),
    // no end of a line: how many bytes of the line are pending now
    Pending(usize),
}

// The place of the first byte c from `from` on; the end where there is none.
pub fn find(s: &[u8], from: usize, c: u8) -> usize
    ensures { result ≡ from + length (until c (drop from s.now)) }
{
    for i in from..s.len() {
        if s[i] == c {
            return i;
        }
    }
    from.max(s.len())
}

// A byte behind the m that are pending; nothing where the slice is full. Returns how many are pending by now, counted up to one more
// than there is room for.
fn keep(kept: &mut [u8], m: usize, b: u8) -> usize
    ensures { Carried kept.old m (b ∷ []) result kept.new }
{
    if m < kept.len() {
        kept[m] = b;
    }
    if m <= kept.len() { m + 1 } else { m }
}

// The bytes of s behind the n that are pending.
fn carry(kept: &mut [u8], n: usize, s: &[u8]) -> usize
    ensures { Carried kept.old n s.now result kept.new }
{
    let mut m = n;
    for b in s {
        m = keep(kept, m, *b);
    }
    m
}

// Goes on with a line of which n bytes are pending, in the bytes of s from `at` on. `kept` and n are two arguments, not a struct, since
// this function is public.
pub fn next_line(kept: &mut [u8], n: usize, s: &[u8], at: usize) -> Step
    ensures { CutTells kept.old n s.now at result kept.new }
{
    if s.len() <= at {
        return Step::Pending(n);
    }
    let e = find(s, at, b'\n');
    let m = carry(kept, n, &s[at..e]);
    if s.len() <= e {
        Step::Pending(m)
    } else if m <= kept.len() {
        Step::Whole(m, e + 1)
    } else {
        Step::Broken(e + 1)
    }
}
