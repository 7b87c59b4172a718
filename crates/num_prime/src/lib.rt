// The prime test, by the 54 primes below 256. specs/Table.antt has the table and the contract.
#![tactic(auto)]

ghost use Rattle.std.specs.Prelude.{◌≡◌, ◌≢◌, ◌↔◌, ◌%◌, IsTrue, EachIndex, slice_index};
ghost use Rattle.num_prime.specs.Table.{PrimeTest};

const LARGEST: u64 = 65535;

const PRIMES: [u64; 54] = [
    2, 3, 5, 7, 11, 13, 17, 19, 23, 29, 31, 37, 41, 43, 47, 53, 59, 61, 67, 71, 73, 79, 83, 89, 97,
    101, 103, 107, 109, 113, 127, 131, 137, 139, 149, 151, 157, 163, 167, 173, 179, 181, 191, 193,
    197, 199, 211, 223, 227, 229, 233, 239, 241, 251,
];

// Is every number of s that divides p equal to it?
fn undivided(p: u64, s: &[u64]) -> bool
    ensures { IsTrue result ↔ EachIndex s.now (λ i. slice_index s.now i ≢ p → p % slice_index s.now i ≢ 0) }
{
    s.iter().all(|q| *q == p || !p.is_multiple_of(*q))
}

// None of the primes below 256 divides p unless equal to it.
pub fn is_prime(p: u64) -> bool
    ensures { PrimeTest p result }
{
    if p < 2 || p > LARGEST {
        return false;
    }
    undivided(p, &PRIMES)
}
