// Refusal 9: the tests of a record that compare numbers alone: each with p, and lengths with each other. Each is two-sided. specs/Bounds.antt has what
// they decide.
#![tactic(auto)]

ghost use Rattle.base_answers.specs.Decides.{Decides};
ghost use Rattle.basis_bounds.specs.Bounds.{Below, Ordered};

use base_lists::wide;

// Whether every number is below p. That of crate poly_tests asks for p above 0, which a caller of this one need not show.
pub fn below(p: u64, b: [u16; 119]) -> bool
    ensures { Decides result (Below p b) }
{
    b.iter().all(|v| wide(*v) < p)
}

// The inequalities of a reduced basis of a reduced ideal, in lengths: of u, X(M), Y(N), X(N), Y(M), Z(M), Z(N).
pub fn ordered(lu: usize, lx: usize, ly: usize, ln: usize, lm: usize, a: usize, b: usize) -> bool
    ensures { Decides result (Ordered lu lx ly ln lm a b) }
{
    lm < lu && a < lu && b < lu && lu <= ly && lu < lx && ln < lx && (lu < ly || lu < ln)
}
