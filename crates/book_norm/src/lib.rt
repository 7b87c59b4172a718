// Whether the E of a body has a non-zero constant norm. specs/Attested.antt says it, specs/Code.antt what the parts do.
#![tactic(auto)]

ghost use Rattle.base_answers.specs.Decides.{Decides};
ghost use Rattle.book_body.specs.Body.{body_of, Finished};
ghost use Rattle.book_norm.specs.Attested.{Attested};
ghost use Rattle.book_norm.specs.Code.{LoadAsks, Loaded, BodyNormAsks, BodyNorm};

use book_body::{HEAD, LENGTHS};
use poly_long::size;
use unit_norm::norm;

// List k of a body, zeros above it.
fn load(s: &[u8], k: usize, out: &mut [u16])
    requires { LoadAsks s.now k out.old }
    ensures { Loaded s.now k out.old out.new }
{
    for (i, x) in out.iter_mut().enumerate() {
        *x = book_bytes::item(s, HEAD, LENGTHS, k, i) as u16;
    }
}

// The norm of a body's E.
fn body_norm(s: &[u8], out: &mut [u16])
    requires { BodyNormAsks s.now out.old }
    ensures { BodyNorm s.now out.old out.new }
{
    let p = book_body::prime_of(s);
    let mut g: [u16; 13] = [0; 13];
    load(s, 0, &mut g);
    let mut h: [u16; 13] = [0; 13];
    load(s, 1, &mut h);
    let mut a: [u16; 4096] = [0; 4096];
    load(s, 2, &mut a);
    let mut b: [u16; 4096] = [0; 4096];
    load(s, 3, &mut b);
    let mut c: [u16; 4096] = [0; 4096];
    load(s, 4, &mut c);
    norm(p, &g, &h, &a, &b, &c, out);
}

// Has the E of a finished body a non-zero constant norm?
pub fn constant_norm(s: &[u8]) -> bool
    requires { Finished s.now }
    ensures { Decides result (Attested (body_of s.now)) }
{
    let mut n: [u16; 12327] = [0; 12327];
    body_norm(s, &mut n);
    size(&n) == 1
}
