// The factors by which the rows of a unit carry over from one pair to another pair of the same field. specs/Code.antt says what is asked.
#![tactic(auto)]

ghost use Rattle.pair_laws.specs.Rows.{Law};
ghost use Rattle.pair_factors.specs.Code.{FactorsAsks};

use num_power::{cube_root, inverse, mul};

// What the rows E1 and F1 are multiplied by, and E2 and F2.
#[derive(Clone, Copy)]
pub struct Multipliers {
    pub x: u64,
    pub y: u64,
}

// The factors, from the leading coefficients: x is the cube root of g h^2 / (g2 h2^2), y is x^2 h2 / h.
pub fn factors(p: u64, g: u64, h: u64, g2: u64, h2: u64) -> Multipliers
    requires { FactorsAsks p g h g2 h2 }
    ensures { Law p result.x result.y g h g2 h2 }
{
    let a = mul(p, g, mul(p, h, h));
    let b = mul(p, g2, mul(p, h2, h2));
    let x = cube_root(p, mul(p, a, inverse(p, b)));
    let y = mul(p, mul(p, mul(p, x, x), h2), inverse(p, h));
    Multipliers { x, y }
}
