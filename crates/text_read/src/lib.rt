// A line p;G;H read: cut into fields, a number, two lists.
#![tactic(auto)]

ghost use Rattle.std.specs.Prelude.{◌≤◌, length};
ghost use Rattle.text_put.specs.Print.{comma};
ghost use Rattle.text_cut.specs.Pieces.{pieces};
ghost use Rattle.text_read.specs.Inner.{ValueOf, Filled, FieldsTell, ShapeTells};
ghost use Rattle.text_read.specs.Tells.{ParseTells};

// A line that reads: p, the texts of its two lists, and how many numbers those have.
#[derive(Clone, Copy)]
struct Marks<'a> {
    pub p: u64,
    pub g: &'a [u8],
    pub h: &'a [u8],
    pub ng: usize,
    pub nh: usize,
}

// A line: p, and how many numbers G and H have.
#[derive(Clone, Copy)]
pub struct Line {
    pub p: u64,
    pub ng: usize,
    pub nh: usize,
}

// A number's value; 0 where the text is none.
fn value_of(s: &[u8]) -> u64
    ensures { ValueOf s.now result }
{
    text_number::number(s).unwrap_or(0)
}

// The numbers of a list, into a slice with room for them.
fn fill(s: &[u8], out: &mut [u64])
    requires { length (pieces comma s.now) ≤ length out.old }
    ensures { Filled s.now out.old out.new }
{
    for (n, part) in s.split(|b| *b == b',').enumerate() {
        out[n] = value_of(part);
    }
}

// A line's three fields.
fn fields(line: &[u8]) -> Option<(&[u8], &[u8], &[u8])>
    ensures { FieldsTell line.now result }
{
    let mut parts = line.split(|b| *b == b';');
    let p = parts.next()?;
    let g = parts.next()?;
    let h = parts.next()?;
    if parts.next().is_some() {
        return None;
    }
    Some((p, g, h))
}

// A line's number and lists, if it reads.
fn shape_of(line: &[u8]) -> Option<Marks<'_>>
    ensures { ShapeTells line.now result }
{
    if 255 < line.len() {
        return None;
    }
    let (first, g, h) = fields(line)?;
    let p = text_number::number(first)?;
    let ng = text_number::list_size(g)?;
    let nh = text_number::list_size(h)?;
    Some(Marks { p, g, h, ng, nh })
}

// A line without its newline. G goes to the front of g and H to the front of h; what is behind them stays. None: the line does not read,
// or a slice is too short for its list, which 126 entries never are; then both stay as they were.
pub fn parse(line: &[u8], g: &mut [u64], h: &mut [u64]) -> Option<Line>
    ensures { ParseTells line.now g.old h.old result g.new h.new }
{
    let m = shape_of(line)?;
    if g.len() < m.ng || h.len() < m.nh {
        return None;
    }
    fill(m.g, g);
    fill(m.h, h);
    Some(Line {
        p: m.p,
        ng: m.ng,
        nh: m.nh,
    })
}
