// Numbers mod p for every p with 1 < p < 2^31: products of two residues fit 64 bits. A modulus is prepared once, so that remainders below
// 2^16 cost a multiplication in place of a division. specs/Prepared.antt and specs/Residue.antt have the contracts.
#![tactic(auto)]

ghost use Rattle.std.specs.Prelude.{◌≡◌, ◌+◌, ◌*◌, ◌-◌, ◌%◌, ◌<◌, ◌≤◌};
ghost use Rattle.num_mod.specs.Residue.{IsModulus};
ghost use Rattle.num_mod.specs.Prepared.{Scale, Quick, Prepared, PreparedOf, ReduceOnceAsks, AddProductAsks, Added};

// A modulus p with what its remainders need: below lim, one multiplication by m finds a remainder. lim is 0 where each is a division, as
// `Prepared` says.
#[derive(Clone, Copy)]
pub struct Modulus {
    pub p: u64,
    pub m: u64,
    pub lim: u64,
}

// The number that goes with p: 2^42 / p.
fn scale_of(p: u64) -> u64
    requires { 0 < p }
    ensures { Scale p result }
{
    4398046511104 / p
}

// A field keeps p below 2^16; the other branch, where each remainder is a division, is not reached while larger p are refused.
pub fn prepare(p: u64) -> Modulus
    requires { IsModulus p }
    ensures { PreparedOf p result }
{
    let m = scale_of(p);
    if p < 65536 {
        let lim = 64 * (p * p);
        Modulus { p, m, lim }
    } else {
        Modulus { p, m, lim: 0 }
    }
}

// x mod p, where m is the number that goes with p and x is below 64 p²: a sum of 63 products fits.
fn remainder(p: u64, m: u64, x: u64) -> u64
    requires { Quick p m x }
    ensures { result ≡ x % p }
{
    let q = x * m / 4398046511104;
    let r = x - q * p;
    if r < p { r } else { r - p }
}

// x mod p
pub fn reduce(q: Modulus, x: u64) -> u64
    requires { Prepared q }
    ensures { result ≡ x % q.p }
{
    let p = q.p;
    let m = q.m;
    let lim = q.lim;
    if x < lim { remainder(p, m, x) } else { x % p }
}

// v mod p, for v below 2 p
pub fn reduce_once(p: u64, v: u64) -> u64
    requires { ReduceOnceAsks p v }
    ensures { result ≡ v % p }
{
    if v < p { v } else { v - p }
}

// s + x y up to a multiple of p, kept below 2^63.
pub fn add_product(p: u64, s: u64, x: u64, y: u64) -> u64
    requires { AddProductAsks p s x y }
    ensures { Added p s x y result }
{
    let v = s + x * y;
    if v < 9223372036854775808 { v } else { v % p }
}
