// The basis record: seven rows of 17 coefficients, M0, M1, M2, N0, N1, N2, U. Here a row is put into it, and the rows are taken out of it.
#![tactic(auto)]

ghost use Rattle.std.specs.Prelude.{◌≡◌};
ghost use Rattle.basis_record.specs.Store.{StoredAsks, Stored, LoadAsks, Loaded, SevenLoaded};

use base_lists::wide;

// The seven rows of a basis.
#[derive(Clone, Copy)]
pub struct Seven {
    pub m0: [u64; 32],
    pub m1: [u64; 32],
    pub m2: [u64; 32],
    pub n0: [u64; 32],
    pub n1: [u64; 32],
    pub n2: [u64; 32],
    pub u: [u64; 32],
}

// Row i of the record from a, which ends before n; the record is 0 from that row on.
pub fn stored(rows: &mut [u16; 119], i: usize, a: &[u64; 32], n: usize)
    requires { StoredAsks rows.old i a.now n }
    ensures { Stored rows.old i a.now rows.new }
{
    let at = 17 * i;
    for j in 0..n {
        rows[at + j] = a[j] as u16;
    }
}

// Row i of the record, as a row of 32
pub fn load(rows: &[u16; 119], i: usize) -> [u64; 32]
    requires { LoadAsks rows.now i }
    ensures { Loaded rows.now i result }
{
    let at = 17 * i;
    let mut r: [u64; 32] = [0; 32];
    for j in 0..17 {
        r[j] = wide(rows[at + j]);
    }
    r
}

// All seven rows of the record
pub fn unpacked(rows: &[u16; 119]) -> Seven
    ensures { SevenLoaded rows.now result }
{
    Seven {
        m0: load(rows, 0),
        m1: load(rows, 1),
        m2: load(rows, 2),
        n0: load(rows, 3),
        n1: load(rows, 4),
        n2: load(rows, 5),
        u: load(rows, 6),
    }
}
