// Numbers and lists of them read: 1 to 5 digits without leading zeros, with commas between.
#![tactic(auto)]

ghost use Rattle.text_number.specs.Tells.{NumberTells, SizeTells};

// A text as a number: 1 to 5 digits without leading zeros.
pub fn number(s: &[u8]) -> Option<u64>
    ensures { NumberTells s.now result }
{
    if s.is_empty() || 5 < s.len() {
        return None;
    }
    if 1 < s.len() && s[0] == b'0' {
        return None;
    }
    let mut v: u64 = 0;
    for b in s {
        match *b {
            b'0'..=b'9' => v = v * 10 + u64::from(*b - b'0'),
            _ => return None,
        }
    }
    Some(v)
}

// A text as a list of one or more numbers with commas: how many it has.
pub fn list_size(s: &[u8]) -> Option<usize>
    ensures { SizeTells s.now result }
{
    let mut n: usize = 0;
    for part in s.split(|b| *b == b',') {
        number(part)?;
        n += 1;
    }
    Some(n)
}
