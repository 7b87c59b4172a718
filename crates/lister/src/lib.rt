// The unit lister: the answer to a line, and to the lines of the input, in whatever pieces it arrives.
#![tactic(auto)]

ghost use Rattle.lister.specs.Listing.{Told, Answer, Steps, Passes};

use text_cut::Step;

// No answer is longer.
const ROOM: usize = 20000;

// How far the lister is: the place in the piece, the bytes of the next line that are pending, the place in the output.
#[derive(Clone, Copy)]
pub struct Going {
    pub at: usize,
    pub n: usize,
    pub to: usize,
}

// The answer to a line that reads as p, G, H. The lists are printed without the zeros at their ends.
fn field_answer(p: u64, g: &[u64], h: &[u64], out: &mut [u8], at: usize) -> usize
    ensures { Told p g.now h.now out.old at result out.new }
{
    let mut rows = [0u16; 6144];
    let mut scratch = [0u16; 6144];
    let m = door_unit::unit(p, g, h, 1000, &mut rows, &mut scratch);
    let n = field_open::unpadded(g);
    let k = field_open::unpadded(h);
    let made = m.map_err(u32::from);
    lister_print::put_made(out, at, p, &g[..n], &h[..k], made, &rows)
}

// The answer to a line without its newline, at a place of `out`; returns the place after it.
pub fn answer(line: &[u8], out: &mut [u8], at: usize) -> usize
    ensures { Answer line.now out.old at result out.new }
{
    let mut g = [0u64; 128];
    let mut h = [0u64; 128];
    let Some(l) = text_read::parse(line, &mut g, &mut h) else {
        return text_put::put_refused(out, at, 12);
    };
    field_answer(l.p, &g[..l.ng], &h[..l.nh], out, at)
}

// One step through a piece: to the end of a line, which is answered, or to the end of the piece.
fn step(kept: &mut [u8], s: &[u8], out: &mut [u8], g: Going) -> Going
    ensures { Steps kept.old s.now out.old g result kept.new out.new }
{
    match text_cut::next_line(kept, g.n, s, g.at) {
        Step::Whole(m, next) => Going {
            at: next,
            n: 0,
            to: answer(&kept[..m], out, g.to),
        },
        Step::Broken(next) => Going {
            at: next,
            n: 0,
            to: text_put::put_refused(out, g.to, 12),
        },
        Step::Pending(m) => Going {
            at: s.len(),
            n: m,
            to: g.to,
        },
    }
}

// Through a piece of the input, from a place on: to its end, or until `out` has no room left for a whole answer. `kept` holds the
// bytes that are pending. A step is as long as a line, so this is no `for`.
pub fn pass(kept: &mut [u8], s: &[u8], out: &mut [u8], from: Going) -> Going
    ensures { Passes kept.old s.now out.old from result kept.new out.new }
{
    let Some(last) = out.len().checked_sub(ROOM) else {
        return from;
    };
    let mut g = from;
    while g.at < s.len() && g.to <= last {
        g = step(kept, s, out, g);
    }
    g
}
