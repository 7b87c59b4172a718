// Where the lister's program stands, and what is next: its decisions, which call nothing of the system. specs/Turn.antt has the contracts.
#![tactic(auto)]

ghost use Rattle.std.specs.Prelude.{◌≡◌};
ghost use Rattle.lister_turn.specs.Turn.{Plans, Ended, with_piece, at_stop};

// The numbers that a system gives to the two streams.
const STDIN_FILENO: i32 = 0;

const STDOUT_FILENO: i32 = 1;

// Of a line n bytes are pending; of the piece that was read, m bytes, those from `at` on are not answered yet; of the answers those from
// `from` up to `to` are not written yet. The phase is 0 before the input's end is read, 1 from then on, 2 once all is written, 3 once a
// call failed: a number, since the functions of this crate answer to any (docs/ENTRY-POINTS.md).
#[derive(Clone, Copy)]
pub struct Stand {
    pub n: usize,
    pub at: usize,
    pub m: usize,
    pub from: usize,
    pub to: usize,
    pub phase: u8,
}

// What comes next: a part of the answers is handed to a descriptor, lines are answered, a descriptor is read, or nothing is left.
#[derive(Clone, Copy)]
pub enum Act {
    Write(i32, usize, usize),
    Answer,
    Read(i32),
    Stop,
}

pub fn plan(s: Stand) -> Act
    ensures { Plans s result }
{
    if s.from < s.to {
        Act::Write(STDOUT_FILENO, s.from, s.to)
    } else if s.at < s.m {
        Act::Answer
    } else if s.phase == 0 {
        Act::Read(STDIN_FILENO)
    } else {
        Act::Stop
    }
}

// After a read that brought a piece of m bytes, or none: what is pending stays.
pub fn came(s: Stand, m: usize, phase: u8) -> Stand
    ensures { result ≡ with_piece s m phase }
{
    Stand {
        n: s.n,
        at: 0,
        m,
        from: 0,
        to: 0,
        phase,
    }
}

// After a read that met the input's end: what is pending is answered.
pub fn ended(out: &mut [u8], s: Stand) -> Stand
    ensures { Ended out.old s result out.new }
{
    let to = text_end::finish(out, s.n);
    Stand {
        n: 0,
        at: 0,
        m: 0,
        from: 0,
        to,
        phase: 1,
    }
}

// All is written.
pub fn stopped(s: Stand) -> Stand
    ensures { result ≡ at_stop s }
{
    Stand { phase: 2, ..s }
}
