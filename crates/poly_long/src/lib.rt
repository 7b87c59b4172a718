// Long polynomials: lent slices of stored coefficients, lowest first. The contracts speak of the polynomial that a slice stands for
// (`row` of crate math_rows); specs/Long.antt has them.
#![tactic(auto)]

ghost use Rattle.std.specs.Prelude.{◌≡◌, ◌+◌, ◌*◌, ◌-◌, ◌%◌, ◌<◌, ◌≤◌, length, get_or, replicate};
ghost use Rattle.math_rows.specs.Row.{Size};
ghost use Rattle.poly_long.specs.Long.{ScaleAsks, Scaled, Stored};

// The length without the zeros at the end: `size` of crate base_lists at stored coefficients. A function over both widths would need a test
// for zero as an argument, and be longer than the two.
pub fn size(x: &[u16]) -> usize
    ensures { Size x.now result }
{
    match x.iter().rposition(|v| *v != 0) {
        Some(last) => last + 1,
        None => 0,
    }
}

// x s mod p; zeros cost no division.
fn scaled(p: u64, s: u64, x: u16) -> u16
    requires { ScaleAsks p s }
    ensures { result ≡ (x * s) % p }
{
    if x == 0 {
        0
    } else {
        (u64::from(x) * s % p) as u16
    }
}

// s d
pub fn scale(p: u64, s: u64, d: &mut [u16])
    requires { ScaleAsks p s }
    ensures { Scaled p s d.old d.new }
{
    for v in d.iter_mut() {
        *v = scaled(p, s, *v);
    }
}

pub fn clear(d: &mut [u16])
    ensures { d.new ≡ replicate (length d.old) 0 }
{
    d.fill(0);
}

// A loop, since `copy_from_slice` becomes `memmove`, which the archive for C asks of nobody.
pub fn copy(s: &[u16], d: &mut [u16])
    requires { length s.now ≡ length d.old }
    ensures { d.new ≡ s.now }
{
    for (i, v) in s.iter().enumerate() {
        d[i] = *v;
    }
}

// A working row as stored coefficients.
pub fn to_stored(x: &[u64; 32]) -> [u16; 32]
    requires { Stored x.now }
    ensures { result ≡ x.now }
{
    let mut r: [u16; 32] = [0; 32];
    for (i, v) in x.iter().enumerate() {
        r[i] = *v as u16;
    }
    r
}
