// The body rule: the lists of a unit, and a body's bytes.
#![tactic(auto)]

ghost use Rattle.std.specs.Prelude.{◌<◌};
ghost use Rattle.book_bytes.specs.Bytes.{u2};
ghost use Rattle.base_answers.specs.Decides.{Decides};
ghost use Rattle.book_body.specs.Body.{UnitList, First, FirstList, list_at, Formed};

use book_body::{HEAD, LENGTHS};

// The most coefficients of an E list.
const LONGEST: usize = 4096;

// A list of a unit: its rule.
#[tactic(auto, using(crate::proofs::Facts::list_unit))]
pub fn unit_list(p: u64, l: &[u64]) -> bool
    ensures { Decides result (UnitList p l.now) }
{
    base_lists::list_length(LONGEST, p, l) != 0
}

// The same of list k of a body.
fn unit_at(s: &[u8], k: usize) -> bool
    requires { k < 5 }
    ensures { Decides result (UnitList (u2 s.now 0) (list_at s.now k)) }
{
    let p = book_bytes::two(s, 0);
    let n = book_bytes::two(s, LENGTHS + 2 * k);
    // Before the list is read into an array of so many.
    if n > LONGEST {
        return false;
    }
    let mut l: [u64; 4096] = [0; 4096];
    let m = book_bytes::read_list(s, HEAD, LENGTHS, k, &mut l);
    unit_list(p as u64, &l[..m])
}

// Of E0 alone, by its length and its last coefficient: an odd length of 3 or more, and monic.
pub fn first_list(n: usize, top: u64) -> bool
    ensures { Decides result (First n top) }
{
    n >= 3 && n % 2 == 1 && top == 1
}

// The same of list 2 of a body.
fn first_at(s: &[u8]) -> bool
    requires { 0 < u2 s.now 6 }
    ensures { Decides result (FirstList (list_at s.now 2)) }
{
    let n = book_bytes::two(s, 6);
    let top = book_bytes::item(s, HEAD, LENGTHS, 2, n - 1);
    first_list(n, top)
}

// The body rule.
#[tactic(auto, using(crate::proofs::Facts::first_some), unfolding(book_body::specs::Body::body_of))]
pub fn body_rule(s: &[u8]) -> bool
    ensures { Decides result (Formed s.now) }
{
    s.len() == book_bytes::start(s, HEAD, LENGTHS, 5)
        && (1..=1000000).contains(&book_bytes::four(s, 12))
        && unit_at(s, 2)
        && unit_at(s, 3)
        && unit_at(s, 4)
        && first_at(s)
}
