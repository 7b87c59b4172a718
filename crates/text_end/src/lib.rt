// The end of the input: what it leaves to be said.
#![tactic(auto)]

ghost use Rattle.text_end.specs.Ends.{Ends};

// What is still to be said at the input's end, where n bytes are pending: a line without its newline is refused.
pub fn finish(out: &mut [u8], n: usize) -> usize
    ensures { Ends out.old n result out.new }
{
    if n == 0 {
        0
    } else {
        text_put::put_refused(out, 0, 12)
    }
}
