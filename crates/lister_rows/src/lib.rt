// What the lister prints of the unit's rows.
#![tactic(auto)]

ghost use Rattle.std.specs.Prelude.{◌≤◌, ◌∷◌, length};
ghost use Rattle.base_lists.specs.Pieces.{Put, cut};
ghost use Rattle.text_put.specs.Print.{semicolon, list_text};
ghost use Rattle.base_lists.specs.Coefficients.{trim};
ghost use Rattle.lister_rows.specs.Text.{rows_text};

// A field of the answer that is a row of the unit.
fn put_row(out: &mut [u8], at: usize, row: &[u16]) -> usize
    ensures { Put out.old at (semicolon ∷ list_text (trim row.now)) result out.new }
{
    let n = poly_long::size(row);
    let to = text_put::put_byte(out, at, b';');
    text_put::put_list(out, to, row, n)
}

// The three rows of the unit, and the newline. A line for each row, as the contract names them.
pub fn put_rows(out: &mut [u8], at: usize, rows: &[u16]) -> usize
    requires { 3072 ≤ length rows.now }
    ensures { Put out.old at (rows_text (trim (cut 0 1024 rows.now)) (trim (cut 1024 1024 rows.now)) (trim (cut 2048 1024 rows.now))) result out.new }
{
    let a = put_row(out, at, &rows[0..1024]);
    let b = put_row(out, a, &rows[1024..2048]);
    let c = put_row(out, b, &rows[2048..3072]);
    text_put::put_byte(out, c, b'\n')
}
