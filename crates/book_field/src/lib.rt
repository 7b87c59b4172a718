// The field of a body: its refusal, and whether a body is of a given field.
#![tactic(auto)]

ghost use Rattle.std.specs.Prelude.{◌≡◌, ◌<◌, get_or};
ghost use Rattle.math_rows.specs.Row.{tab};
ghost use Rattle.base_answers.specs.Decides.{Decides};
ghost use Rattle.base_answers.specs.Faults.{no_of};
ghost use Rattle.book_body.specs.Body.{FieldSays, OneField, list_at, body_of};
ghost use Rattle.book_field.specs.Code.{pair_of, Sold, SoldOver, Clipped};

use base_answers::Fault;
use book_body::{HEAD, LENGTHS};

// The first 14 coefficients of list k: one more than a field's lists may have.
fn first_14(s: &[u8], k: usize) -> [u64; 14]
    requires { k < 5 }
    ensures { result ≡ tab 14 (λ i. get_or (list_at s.now k) i 0) }
{
    std::array::from_fn(|i| book_bytes::item(s, HEAD, LENGTHS, k, i))
}

// A length, at most 14.
fn clip(n: usize) -> usize
    ensures { Clipped n result }
{
    n.min(14)
}

// The field of a body: its refusal, if it has one.
pub fn field_refusal(s: &[u8]) -> Result<(), Fault>
    ensures { FieldSays (body_of s.now) (no_of result) }
{
    let p = book_bytes::two(s, 0);
    let g = first_14(s, 0);
    let h = first_14(s, 1);
    let n = clip(book_bytes::two(s, 2));
    let m = clip(book_bytes::two(s, 4));
    field_open::strict_refusal(p as u64, &g[..n], &h[..m])
}

// Is a body over p of the field p, G, H? The lists of an accepted field are short.
fn same_pair(p: u64, g: &[u64], h: &[u64], b: &[u8]) -> bool
    requires { SoldOver p g.now h.now b.now }
    ensures { Decides result (OneField (pair_of p g.now h.now) (body_of b.now)) }
{
    let mut g2: [u64; 13] = [0; 13];
    let mut h2: [u64; 13] = [0; 13];
    let n2 = book_bytes::read_list(b, HEAD, LENGTHS, 0, &mut g2);
    let m2 = book_bytes::read_list(b, HEAD, LENGTHS, 1, &mut h2);
    pair_agree::one_field(p, g, h, &g2[..n2], &h2[..m2])
}

// Is a body of the field p, G, H? A body over another prime never is.
#[tactic(auto, unfolding(book_body::specs::Body::body_of))]
pub fn of_field(p: u64, g: &[u64], h: &[u64], b: &[u8]) -> bool
    requires { Sold p g.now h.now b.now }
    ensures { Decides result (OneField (pair_of p g.now h.now) (body_of b.now)) }
{
    p == book_bytes::two(b, 0) as u64 && same_pair(p, g, h, b)
}
