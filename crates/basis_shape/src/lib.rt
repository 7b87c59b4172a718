// Refusal 9: the tests of a record that look at lengths and leading coefficients alone. Each is two-sided. specs/Lengths.antt has what they decide,
// proofs/Lengths.antt that lengths are settled. Crate basis_bounds compares the lengths, crate basis_accept has what they say of an ideal.
#![tactic(auto)]

ghost use Rattle.base_answers.specs.Decides.{Decides};
ghost use Rattle.basis_shape.specs.Lengths.{Narrow, RowsFitAsks, Units, Shape, ShapeAsks};

use basis_bounds::ordered;
use basis_record::Seven;
use poly_rows::size;

// Whether M1 and N1 end before kb, and M2 and N2 before kc.
pub fn rows_fit(kb: usize, kc: usize, rows: &Seven) -> bool
    requires { RowsFitAsks rows.now.m1 rows.now.m2 rows.now.n1 rows.now.n2 }
    ensures { Decides result (Narrow kb kc rows.now.m1 rows.now.m2 rows.now.n1 rows.now.n2) }
{
    size(&rows.m1) <= kb && size(&rows.m2) <= kc && size(&rows.n1) <= kb && size(&rows.n2) <= kc
}

// The leading coefficients of a scaled basis.
fn units(u: u64, x: u64, y: u64) -> bool
    ensures { Decides result (Units u x y) }
{
    u == 1 && x == 2 && y == 1
}

// Lengths and leading coefficients of U and of the polynomial parts of X(M), Y(M), X(N), Y(N), Z(M), Z(N).
pub fn shape(
    u: &[u64; 32],
    mx: &[u64; 32],
    my: &[u64; 32],
    nx: &[u64; 32],
    ny: &[u64; 32],
    zm: &[u64; 32],
    zn: &[u64; 32],
) -> bool
    requires { ShapeAsks u.now mx.now my.now nx.now ny.now zm.now zn.now }
    ensures { Decides result (Shape u.now mx.now my.now nx.now ny.now zm.now zn.now) }
{
    let lu = size(u);
    let lx = size(mx);
    let ly = size(ny);
    let ln = size(nx);
    let lm = size(my);
    let a = size(zm);
    let b = size(zn);
    ordered(lu, lx, ly, ln, lm, a, b) && units(u[lu - 1], mx[lx - 1], ny[ly - 1])
}
