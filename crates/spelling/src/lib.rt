// What a design's text says, gone over byte by byte by the scan of case files: the bytes go to a buffer as long as they begin a case, and the spot of the
// first that does not is kept.
#![tactic(auto)]

ghost use Rattle.std.specs.Prelude.{◌≡◌, map};
ghost use Rattle.meaning.specs.Design.{said, cell_bytes, cells_in, line_said, end_of, text_said};
ghost use Rattle.spelling.specs.Trace.{spot_of, step, steps, started};

use meaning::{MARK, RADIX};
use scan::State;

// What is no word and no number is taken for this: no byte of a case, wherever it stands. The definition of what a text says has this byte (`no_byte`).
const NO_BYTE: u8 = 254;

// A line and a cell of a text, counted from 1.
#[derive(Clone, Copy)]
pub struct Spot {
    pub line: usize,
    pub cell: usize,
}

// How far it has come. `state` is what the scan keeps behind the bytes that begin a case, and `count` how many of them are in the buffer; `wrong` is the
// spot of the first byte that begins none.
#[derive(Clone, Copy)]
pub struct Trace {
    pub state: State,
    pub count: usize,
    pub wrong: Option<Spot>,
}

// One byte more, said at that spot.
fn say(t: Trace, b: u8, at: Spot, out: &mut [u8]) -> Trace
    ensures { (result, out.new) ≡ step (t, out.old) (said (spot_of at) b) }
{
    if t.wrong.is_some() {
        return t;
    }
    let next = scan::behind(t.state, b);
    if let State::Dead = next {
        return Trace {
            wrong: Some(at),
            ..t
        };
    }
    if t.count < out.len() {
        out[t.count] = b;
        return Trace {
            state: next,
            count: t.count + 1,
            ..t
        };
    }
    Trace { state: next, ..t }
}

// What a cell behind the word says: in a line with an allowance its halves, else an entry.
fn say_cell(t: Trace, letter: u8, w: &[u8], at: Spot, out: &mut [u8]) -> Trace
    ensures { (result, out.new) ≡ steps (t, out.old) (map (said (spot_of at)) (cell_bytes letter w.now)) }
{
    match cells::number(w) {
        Some(v) if letter == b'A' => {
            let high = say(t, (v / RADIX) as u8, at, out);
            say(high, (v % RADIX) as u8, at, out)
        }
        Some(v) if v < u32::from(NO_BYTE) => say(t, v as u8, at, out),
        _ => say(t, NO_BYTE, at, out),
    }
}

// How far it has come with a line: behind its last cell, or where the line before ended.
#[derive(Clone, Copy)]
pub struct Lined {
    pub trace: Trace,
    pub spot: Spot,
}

// What a line says; `before` is where the line before ended.
fn say_line(before: Lined, l: &[u8], s: u8, line: usize, out: &mut [u8]) -> Lined
    ensures out_after { (result.trace, out.new) ≡ steps (before.trace, out.old) (line_said (spot_of before.spot) line (cells_in s l.now)) }
    ensures spot_after { spot_of result.spot ≡ end_of (spot_of before.spot) line (cells_in s l.now) }
{
    let used = cells::used_part(l, s);
    if used.is_empty() {
        return before;
    }
    let mut pieces = used.split(|b| *b == s);
    let Some(word) = pieces.next() else {
        return before;
    };
    let letter = cells::letter(word).unwrap_or(NO_BYTE);
    let marked = say(before.trace, MARK, before.spot, out);
    let mut trace = say(marked, letter, Spot { line, cell: 1 }, out);
    // counted as a reader of the text does; `enumerate` would count from 0, and the last number is needed behind the loop
    let mut cell = 2;
    for w in pieces {
        trace = say_cell(trace, letter, w, Spot { line, cell }, out);
        cell += 1;
    }
    Lined {
        trace,
        spot: Spot { line, cell },
    }
}

// What a text says: its lines, and its end.
pub fn spell(text: &[u8], out: &mut [u8]) -> Trace
    ensures { (result, out.new) ≡ steps (started, out.old) (text_said text.now) }
{
    let s = cells::separator(text);
    let mut here = Lined {
        trace: Trace {
            state: State::Start,
            count: 0,
            wrong: None,
        },
        spot: Spot { line: 0, cell: 1 },
    };
    // counted from 1, where `enumerate` counts from 0
    let mut line = 1;
    let body = cells::without_mark(text);
    for l in body.split(|b| *b == b'\n') {
        here = say_line(here, l, s, line, out);
        line += 1;
    }
    let marked = say(here.trace, MARK, here.spot, out);
    let last = Spot {
        line: here.spot.line + 1,
        cell: 1,
    };
    say(marked, b'E', last, out)
}
