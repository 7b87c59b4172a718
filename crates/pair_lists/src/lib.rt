// Two lists of coefficients over one p: whether they agree up to a constant factor. specs/Code.antt says what is asked.
#![tactic(auto)]

ghost use Rattle.base_answers.specs.Decides.{Decides};
ghost use Rattle.pair_laws.specs.OneField.{Agree};
ghost use Rattle.pair_lists.specs.Code.{AgreeAsks};

// Do two lists agree after both are made monic? Each is multiplied by the other's leading coefficient, so that no inverse is needed.
pub fn agree(p: u64, a: &[u64], b: &[u64]) -> bool
    requires { AgreeAsks p a.now b.now }
    ensures { Decides result (Agree p a.now b.now) }
{
    // Before b[top], which may not be there.
    if a.len() != b.len() {
        return false;
    }
    let top = a.len() - 1;
    let x = a[top];
    let y = b[top];
    a.iter().zip(b).all(|(u, v)| y * *u % p == x * *v % p)
}
