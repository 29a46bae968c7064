// The records of a case file, one after another (01, "Case file, house layout"): "The reader keeps the case bytes and its place in them and goes record by
// record; the entries it hands back are that very stretch of the caller's bytes."
// `Reader` is the struct of slice and offset; its few methods are thin, over functions on the two.
#![tactic(auto)]

ghost use Rattle.std.specs.Prelude.{◌≡◌, ◌+◌, ◌≤◌, length, drop};
ghost use Rattle.std.proofs.Math.Seq.{slice};
ghost use Rattle.scan.specs.Machine.{Scans};
ghost use Rattle.meaning.specs.Case.{Place};
ghost use Rattle.reader.specs.Step.{entries_in, Stretch, StepIs, stepped_to, Moved};
ghost use Rattle.reader.specs.Look.{field_at, body_at, record_at};

use scan::{State, scan};

// What a step says that is not refused. The entries of an R or a C record are got by `entries`.
#[derive(Clone, Copy)]
pub enum Step {
    // The F record: p and n.
    Field { p: u32, n: usize },
    // The A record: the allowance is 128·high + low.
    Allow { high: u8, low: u8 },
    // An R record, a C record.
    Row,
    Candidate,
    // The E record.
    End,
    // The case is over: a step after E.
    Over,
}

// A place between two records of a case; made by `front` and by steps alone.
#[derive(Clone, Copy)]
pub struct Cursor {
    at: usize,
}

// What a step said, or the place of refusal 8; where it was made, and the place for the next one: behind the record that is handed out, else the same place.
#[derive(Clone, Copy)]
pub struct Stepped {
    pub step: Result<Step, usize>,
    pub from: Cursor,
    pub next: Cursor,
}

// What begins at an offset, by its letter, and the offset behind it.
#[derive(Clone, Copy)]
struct Ahead {
    step: Step,
    next: usize,
}

// The front of a case.
pub fn front() -> Cursor
    ensures { result.at ≡ 0 }
{
    Cursor { at: 0 }
}

// The F record at `at`, unless it is cut short.
#[tactic(auto, unfolding(crate::specs::Look::field_at))]
fn peek_field(s: &[u8], at: usize) -> Option<Ahead>
    requires { at ≤ length s.now }
    ensures { result ≡ field_at at (drop at s.now) }
{
    if s.len() - at < 4 {
        return None;
    }
    Some(Ahead {
        step: Step::Field {
            p: u32::from(s[at + 2]),
            n: usize::from(s[at + 3]),
        },
        next: at + 4,
    })
}

// The record behind F that begins at `at`, by its letter, unless its numbers are cut short.
#[tactic(auto, unfolding(crate::specs::Look::body_at))]
fn peek_body(s: &[u8], at: usize, n: u8) -> Option<Ahead>
    requires { at ≤ length s.now }
    ensures { result ≡ body_at n at (drop at s.now) }
{
    let rest = s.len() - at;
    if rest < 2 {
        return None;
    }
    let next = at + 2 + usize::from(n);
    match s[at + 1] {
        b'E' => Some(Ahead {
            step: Step::End,
            next: at + 2,
        }),
        b'A' if rest < 4 => None,
        b'A' => Some(Ahead {
            step: Step::Allow {
                high: s[at + 2],
                low: s[at + 3],
            },
            next: at + 4,
        }),
        b'R' => Some(Ahead {
            step: Step::Row,
            next,
        }),
        _ => Some(Ahead {
            step: Step::Candidate,
            next,
        }),
    }
}

// The record that begins at `at` in the state q, if the bytes up to `next` are good.
#[tactic(auto, unfolding(crate::specs::Look::record_at))]
fn peek(s: &[u8], at: usize, q: State) -> Option<Ahead>
    requires { at ≤ length s.now }
    ensures { result ≡ record_at q at (drop at s.now) }
{
    match q {
        State::Start => peek_field(s, at),
        State::Body(h) => peek_body(s, at, h.n),
        _ => None,
    }
}

// The place of a case, from a state reached at `at` on.
fn place(s: &[u8], at: usize, q: State) -> usize
    requires { Scans s.now at q }
    ensures { Place s.now result }
{
    scan(s, q, at, s.len()).at
}

// A step from one offset on to another.
fn said(step: Result<Step, usize>, from: usize, next: usize) -> Stepped
    ensures { result ≡ stepped_to step from next }
{
    Stepped {
        step,
        from: Cursor { at: from },
        next: Cursor { at: next },
    }
}

// The step at any offset; where no run of steps leads to the offset it is refused, with the place of s. The state at an offset is not kept, so the bytes in
// front of it are scanned again: a step takes time in proportion to the offset behind its record.
fn step_at(s: &[u8], at: usize) -> Stepped
    ensures { StepIs s.now at result }
{
    let here = scan(s, State::Start, 0, at);
    let reached = here.at;
    if reached < at {
        return said(Err(reached), at, at);
    }
    let q = here.state;
    if at == s.len() {
        let State::Over(_) = q else {
            return said(Err(at), at, at);
        };
        return said(Ok(Step::Over), at, at);
    }
    let Some(Ahead { step, next }) = peek(s, at, q) else {
        return said(Err(place(s, at, q)), at, at);
    };
    let end = scan(s, q, at, next).at;
    if end < next {
        return said(Err(end), at, at);
    }
    said(Ok(step), at, next)
}

// The bytes behind a mark at `at`, up to `end`, as far as there are any.
fn behind_mark<'a>(s: &'a [u8], at: usize, end: usize) -> &'a [u8]
    ensures { Stretch s.entry (at + 2) (slice (at + 2) end s.now) result }
{
    // no bytes are behind an offset past the end, however far it is
    let from = at.min(s.len()) + 2;
    let to = end.min(s.len());
    if from <= to { &s[from..to] } else { &[] }
}

// The entries of the R or C record that a step handed out: that very stretch of s, behind its mark and up to its end; none of another step.
pub fn entries<'a>(s: &'a [u8], r: Stepped) -> &'a [u8]
    ensures { Stretch s.entry (r.from.at + 2) (entries_in s.now r) result }
{
    match r.step {
        Ok(Step::Row | Step::Candidate) => behind_mark(s, r.from.at, r.next.at),
        _ => &[],
    }
}

// A case and the offset of its next record (01: "The reader keeps the case bytes and its place in them").
#[derive(Drop)]
pub struct Reader<'a> {
    src: &'a [u8],
    at: usize,
}

impl<'a> Reader<'a> {
    // The reader at the front of a case.
    pub fn new(src: &'a [u8]) -> Reader<'a>
        ensures { (result.src ≡ src.entry) × (result.at ≡ 0) }
    {
        Reader { src, at: 0 }
    }

    // What the next step says; the reader's place moves behind a record that is handed out.
    pub fn next(&mut self) -> Stepped
        ensures { Moved self.old self.new result }
    {
        let r = step_at(self.src, self.at);
        self.at = r.next.at;
        r
    }

    // The entries that a step of this reader handed out.
    pub fn entries(self, r: Stepped) -> &'a [u8]
        ensures { Stretch self.entry.src (r.from.at + 2) (entries_in self.entry.src.now r) result }
    {
        entries(self.src, r)
    }
}

// The step at a place between two records, by a reader at that place. It stands beside the reader, as docs/CALLS.md has it: a cursor is a plain value that a
// caller can keep, to make the same step again.
pub fn step_from(s: &[u8], c: Cursor) -> Stepped
    ensures { StepIs s.now c.at result }
{
    let mut reader = Reader { src: s, at: c.at };
    reader.next()
}
