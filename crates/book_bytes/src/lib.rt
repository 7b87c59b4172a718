// Numbers in bytes, little-endian: read at any place, 0 past the end; written into a lent slice.
#![tactic(auto)]

ghost use Rattle.std.specs.Prelude.{◌≡◌, ◌+◌, ◌-◌, ◌*◌, ◌≤◌, ◌<◌, length, get_or, take, drop};
ghost use Rattle.base_lists.specs.Pieces.{Written};
ghost use Rattle.book_bytes.specs.Bytes.{u2, u4, le, words, list_start, list_at, Small};

// The byte at i; 0 past the end.
fn byte(s: &[u8], i: usize) -> usize
    ensures { (result ≡ get_or s.now i 0) × (result < 256) }
{
    if i < s.len() { s[i] as usize } else { 0 }
}

// The number in the 2 bytes at i.
pub fn two(s: &[u8], i: usize) -> usize
    ensures { (result ≡ u2 s.now i) × (result < 65536) }
{
    if i < s.len() {
        let a = byte(s, i);
        let b = byte(s, i + 1);
        a + 256 * b
    } else {
        0
    }
}

// The number in the 4 bytes at i.
pub fn four(s: &[u8], i: usize) -> usize
    ensures { (result ≡ u4 s.now i) × (result < 4294967296) }
{
    if i < s.len() {
        let a = two(s, i);
        let b = two(s, i + 2);
        a + 65536 * b
    } else {
        0
    }
}

// Where list k starts, after `head` bytes of numbers with the lists' lengths from byte `from` on.
pub fn start(s: &[u8], head: usize, from: usize, k: usize) -> usize
    requires { (head < 1000) × (from < 1000) × (k ≤ 8) }
    ensures { (result ≡ list_start head from s.now k) × (result < 2000000) }
{
    let mut at = head;
    for i in 0..k {
        at += 2 * two(s, from + 2 * i);
    }
    at
}

// The number i of list k; 0 past its end.
pub fn item(s: &[u8], head: usize, from: usize, k: usize, i: usize) -> u64
    requires { (head < 1000) × (from < 1000) × (k < 8) }
    ensures { result ≡ get_or (list_at head from s.now k) i 0 }
{
    if i < two(s, from + 2 * k) {
        two(s, start(s, head, from, k) + 2 * i) as u64
    } else {
        0
    }
}

// List k at the front of a lent slice; its length.
pub fn read_list(s: &[u8], head: usize, from: usize, k: usize, out: &mut [u64]) -> usize
    requires { (head < 1000) × (from < 1000) × (k < 8) × (u2 s.now (from + 2 * k) ≤ length out.old) }
    ensures { Written out.old 0 (list_at head from s.now k) (u2 s.now (from + 2 * k)) result out.new }
{
    let n = two(s, from + 2 * k);
    let at = start(s, head, from, k);
    for i in 0..n {
        out[i] = two(s, at + 2 * i) as u64;
    }
    n
}

// v in 2 bytes at `at`; the place after them.
pub fn put_two(out: &mut [u8], at: usize, v: u64) -> usize
    requires { (at + 2 ≤ length out.old) × (v < 65536) }
    ensures { Written out.old at (le 2 v) 2 result out.new }
{
    copy_in(out, at, &(v as u16).to_le_bytes())
}

// v in 4 bytes at `at`; the place after them.
pub fn put_four(out: &mut [u8], at: usize, v: u64) -> usize
    requires { (at + 4 ≤ length out.old) × (v < 4294967296) }
    ensures { Written out.old at (le 4 v) 4 result out.new }
{
    copy_in(out, at, &(v as u32).to_le_bytes())
}

// A list, 2 bytes a number, at `at`; the place after it.
pub fn put_list(out: &mut [u8], at: usize, l: &[u64]) -> usize
    requires { (at + 2 * length l.now ≤ length out.old) × Small l.now }
    ensures { Written out.old at (words l.now) (2 * length l.now) result out.new }
{
    let mut o = at;
    for v in l {
        o = put_two(out, o, *v);
    }
    o
}

// The bytes of s at `at`; the place after them. A loop, since `copy_from_slice` becomes `memmove`, which the archive for C asks of nobody.
pub fn copy_in(out: &mut [u8], at: usize, s: &[u8]) -> usize
    requires { at + length s.now ≤ length out.old }
    ensures { Written out.old at s.now (length s.now) result out.new }
{
    let mut o = at;
    for v in s {
        out[o] = *v;
        o += 1;
    }
    o
}

// The bytes from `from` to `to`, moved up by `by`; the place after them.
pub fn lift(out: &mut [u8], from: usize, to: usize, by: usize) -> usize
    requires { (from ≤ to) × (to + by ≤ length out.old) }
    ensures { Written out.old (from + by) (take (to - from) (drop from out.old)) (to - from) result out.new }
{
    out.copy_within(from..to, from + by);
    to + by
}
