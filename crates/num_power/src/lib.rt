// Products, powers, inverses and cube roots mod p, for p below 2^31: products of two residues fit 64 bits. specs/Powers.antt has the contracts.
#![tactic(auto)]

ghost use Rattle.std.specs.Prelude.{◌≡◌, ◌*◌, ◌%◌};
ghost use Rattle.math_fp.specs.Fp.{pow_mod};
ghost use Rattle.num_power.specs.Powers.{One, Two, Nonzero, Rooted, Inverse, CubeRoot};

pub fn mul(p: u64, a: u64, b: u64) -> u64
    requires { Two p a b }
    ensures { result ≡ (a * b) % p }
{
    a * b % p
}

// a^e by squaring: r b^n is a^e mod p throughout. The loop halves n and counts no index, so no range and no iterator fits it.
pub fn power(p: u64, a: u64, e: u64) -> u64
    requires { One p a }
    ensures { result ≡ pow_mod p a e }
{
    let mut r: u64 = 1;
    let mut b = a;
    let mut n = e;
    while n > 0 {
        if n % 2 == 1 {
            r = mul(p, r, b);
        }
        b = mul(p, b, b);
        n = n / 2;
    }
    r
}

// By Fermat: a · a^(p - 2) = 1.
pub fn inverse(p: u64, a: u64) -> u64
    requires { Nonzero p a }
    ensures { Inverse p a result }
{
    power(p, a, p - 2)
}

// The one cube root, for p mod 3 = 2.
pub fn cube_root(p: u64, a: u64) -> u64
    requires { Rooted p a }
    ensures { CubeRoot p a result }
{
    power(p, a, (2 * p - 1) / 3)
}
