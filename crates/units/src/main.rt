// The unit lister: reads lines p;G;H from standard input and writes an answer to each, as they come.
#![tactic(auto)]

ghost use Rattle.std.specs.Prelude.{◌≡◌, length, ◌+◌, ◌≤◌};
ghost use Rattle.std.specs.Io.{WritesAtMost, ReadsAtMost};
ghost use Rattle.units.specs.Serve.{Settles, Asks, Wrote, Answers, Heard, Turns, Ran, told, moved};

use lister::Going;
use lister_turn::{Act, Stand, came, ended, plan, stopped};
use std::io::{Error, ErrorKind, Read, Result, Write};
use std::thread::yield_now;

// Whether a call that failed is to be tried again: it was interrupted, or would have had to wait.
fn again(why: Error) -> bool {
    match why.kind() {
        ErrorKind::Interrupted => true,
        ErrorKind::WouldBlock => {
            yield_now();
            true
        }
        _ => false,
    }
}

// How many bytes a call moved.
fn count(got: Result<usize>) -> usize
    ensures { result ≡ moved (told got) }
{
    got.unwrap_or(0)
}

// The phase after a call that answered this. Where it failed for good, `why` says so.
fn settle(phase: u8, got: Result<usize>, why: &mut Option<Error>) -> u8
    ensures { Settles (moved (told got)) phase result }
{
    match got {
        Ok(0) => {
            *why = Some(Error::from(ErrorKind::WriteZero));
            3
        }
        Err(e) if !again(e) => {
            *why = Some(e);
            3
        }
        _ => phase,
    }
}

// After a write of a part of the answers.
fn wrote(s: Stand, part: &[u8], got: Result<usize>, why: &mut Option<Error>) -> Stand
    requires taken { WritesAtMost got part.now }
    requires within { s.from + length part.now ≤ s.to }
    ensures { Wrote s (told got) result }
{
    Stand {
        from: s.from + count(got),
        phase: settle(s.phase, got, why),
        ..s
    }
}

// The lines of a piece are answered, as many as there is room for.
fn answer(kept: &mut [u8], buf: &[u8], out: &mut [u8], s: Stand) -> Stand
    requires { s.m ≤ length buf.now }
    ensures { Answers kept.old buf.now out.old s result kept.new out.new }
{
    let from = Going {
        at: s.at,
        n: s.n,
        to: 0,
    };
    let g = lister::pass(kept, &buf[..s.m], out, from);
    Stand {
        n: g.n,
        at: g.at,
        from: 0,
        to: g.to,
        ..s
    }
}

// After a read: a piece came, or the input's end, or nothing.
fn heard(out: &mut [u8], s: Stand, got: Result<usize>, why: &mut Option<Error>) -> Stand
    ensures { Heard out.old s (told got) result out.new }
{
    if let Ok(0) = got {
        ended(out, s)
    } else {
        came(s, count(got), settle(s.phase, got, why))
    }
}

// One turn: what `plan` says is done.
fn turn<R: Read, W: Write>(
    input: &mut R,
    output: &mut W,
    kept: &mut [u8],
    buf: &mut [u8],
    out: &mut [u8],
    s: Stand,
    why: &mut Option<Error>,
) -> Stand
    requires { Asks buf.old out.old s }
    ensures { Turns (R.remaining input.old) (R.remaining input.new) (W.contents output.old) (W.contents output.new)
        kept.old buf.old out.old s result kept.new buf.new out.new }
{
    match plan(s) {
        Act::Write(_, from, to) => {
            let part = &out[from..to];
            let got = output.write(part);
            wrote(s, part, got, why)
        }
        Act::Answer => answer(kept, buf, out, s),
        Act::Read(_) => {
            let got = input.read(buf);
            heard(out, s, got, why)
        }
        Act::Stop => stopped(s),
    }
}

// Turn after turn. A proved loop has to end, so there are at most as many turns as no input uses up.
// The slices are arguments of their own, since the contract of a turn speaks of each, before and after.
fn run<R: Read, W: Write>(
    input: &mut R,
    output: &mut W,
    kept: &mut [u8],
    buf: &mut [u8],
    out: &mut [u8],
    why: &mut Option<Error>,
) -> Stand
    requires kept_size { length kept.old ≡ 255 }
    requires room { 20000 ≤ length out.old }
    ensures { Ran (R.remaining input.old) (R.remaining input.new) (W.contents output.old) (W.contents output.new) result }
{
    let mut s = Stand {
        n: 0,
        at: 0,
        m: 0,
        from: 0,
        to: 0,
        phase: 0,
    };
    for _ in 0..u64::MAX {
        let phase = s.phase;
        if phase > 1 {
            break;
        }
        s = turn(input, output, kept, buf, out, s, why);
    }
    s
}

// Says on standard error which stream failed, and why.
fn complain(rt: &impl Eprint, stream: &str, why: Option<Error>) -> Result<()> {
    match why {
        Some(e) => rt.eprintln(format_args!("units: standard {stream}: {e}")),
        None => rt.eprintln(format_args!("units: standard {stream}")),
    }
}

// Answers go out once more than 64 bytes of them stand in `out`, whose other 20,000 are room for one more: a long answer at once, a few
// short ones together.
fn main(rt: HostRuntime) {
    let mut kept = [0u8; 255];
    let mut buf = [0u8; 65536];
    let mut out = [0u8; 20064];
    let mut why = None;
    let s = run(
        &mut rt.stdin(),
        &mut rt.stdout(),
        &mut kept,
        &mut buf,
        &mut out,
        &mut why,
    );
    if s.phase == 2 {
        return;
    }
    let stream = if s.from < s.to { "output" } else { "input" };
    let _ = complain(&rt, stream, why);
}
