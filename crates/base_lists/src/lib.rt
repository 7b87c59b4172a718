// Lists of numbers: pieces of them, trimming, and the test for a list of coefficients, also one with zeros above it.
#![tactic(auto)]

ghost use Rattle.std.specs.Prelude.{◌≡◌};
ghost use Rattle.base_lists.specs.Coefficients.{Size, ListLength};
ghost use Rattle.base_lists.specs.Padding.{Unpadded};

// A stored number, to be reckoned with.
pub fn wide(x: u16) -> u64
    ensures { result ≡ x }
{
    u64::from(x)
}

// The length of s without the zeros at its end.
pub fn size(s: &[u64]) -> usize
    ensures { Size s.now result }
{
    match s.iter().rposition(|x| *x != 0) {
        Some(last) => last + 1,
        None => 0,
    }
}

// How many coefficients s has, or 0: it is no list of coefficients below p, at most `most` of them.
pub fn list_length(most: usize, p: u64, s: &[u64]) -> usize
    ensures { ListLength most p s.now result }
{
    let n = s.len();
    if n == 0 || n > most || s[n - 1] == 0 {
        return 0;
    }
    if s.iter().all(|v| *v < p) { n } else { 0 }
}

// How many numbers at the front of s are the list that it stands for: without the zeros at its end; 0 where s has over `room` entries.
pub fn unpadded(room: usize, s: &[u64]) -> usize
    ensures { Unpadded room s.now result }
{
    if s.len() > room { 0 } else { size(s) }
}
