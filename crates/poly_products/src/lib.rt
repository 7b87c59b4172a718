// Products of long polynomials (crate poly_long), up to 65,536 coefficients. specs/Products.antt has the contract.
#![tactic(auto)]

ghost use Rattle.poly_products.specs.Products.{TimesAsks, Times};

use poly_mix::mix;

// x y
pub fn times(p: u64, x: &[u16], y: &[u16], d: &mut [u16])
    requires { TimesAsks p x.now y.now d.old }
    ensures { Times p x.now y.now d.old d.new }
{
    let o: [u16; 1] = [0; 1];
    mix(p, x, y, &o, &o, d);
}
