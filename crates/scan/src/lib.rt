// What goes over the bytes of a case file (01, "Case file, house layout").
//
// A scan goes over the bytes from the front and keeps what the rest of the file depends on (`State`). Every state but `Dead` can be continued to a
// well-formed case, so the first byte that leads to `Dead` stands at the place of refusal 8.
#![tactic(auto)]

ghost use Rattle.std.specs.Prelude.{◌≡◌, ◌+◌, ◌<◌, ◌≤◌};
ghost use Rattle.scalar.specs.Scalar.{word_bound};
ghost use Rattle.scan.specs.Machine.{stale, opened, sized, letter, entered, after, Scans, ScanIs};

use meaning::MARK;
use scalar::is_prime;

// 01's bounds in the widths that the scan works in: on n, on a half of the allowance, on the number of candidates.
const MOST_ROWS: u8 = meaning::WIDEST as u8;

const HALF: u8 = meaning::RADIX as u8;

const MOST_LISTED: u32 = meaning::MOST_CANDIDATES as u32;

// What the scan keeps behind F. `count` is of rows and candidates together, that of the record under way included; `fresh` says that an A record may
// still come.
#[derive(Clone, Copy)]
pub struct Head {
    pub p: u8,
    pub n: u8,
    pub count: u32,
    pub fresh: bool,
}

// What the rest of a file depends on, between two bytes.
#[derive(Clone, Copy)]
pub enum State {
    // The mark of F is next, its letter, p, n.
    Start,
    Opening,
    Modulus,
    Size(u8),
    // The mark of a record behind F is next, its letter, one of `left` entries below `bound`.
    Body(Head),
    Letter(Head),
    Entries { head: Head, bound: u8, left: u8 },
    // E was the last record: nothing may follow.
    Over(Head),
    // No well-formed case begins so. A state and not a `None`: a run over bytes is then a plain fold (`run` in specs/Machine.antt), with no case for one that
    // has stopped.
    Dead,
}

// A state, and the offset where it was reached.
#[derive(Clone, Copy)]
pub struct Scanned {
    pub state: State,
    pub at: usize,
}

// What is kept behind another record than F: no A record may come any more.
fn stale_head(h: Head, count: u32) -> Head
    ensures { result ≡ stale h count }
{
    Head {
        count,
        fresh: false,
        ..h
    }
}

// The state behind n, the last byte of the F record.
#[tactic(auto, unfolding(crate::specs::Machine::sized))]
fn size(p: u8, n: u8) -> State
    ensures { result ≡ sized p n }
{
    match n {
        1..=MOST_ROWS => State::Body(Head {
            p,
            n,
            count: 0,
            fresh: true,
        }),
        _ => State::Dead,
    }
}

// The state behind the letter of an R or a C record.
fn open_entries(h: Head) -> State
    requires { h.count + 1 < word_bound }
    ensures { result ≡ opened h }
{
    State::Entries {
        head: stale_head(h, h.count + 1),
        bound: h.p,
        left: h.n,
    }
}

// The state behind the letter of a record that follows F.
#[tactic(auto, unfolding(crate::specs::Machine::letter))]
fn begin(h: Head, b: u8) -> State
    ensures { result ≡ letter h b }
{
    let rows = u32::from(h.n);
    let count = h.count;
    match b {
        b'A' if h.fresh => State::Entries {
            head: stale_head(h, count),
            bound: HALF,
            left: 2,
        },
        b'R' if count < rows => open_entries(h),
        // C and E come behind the last R
        b'C' if rows <= count && count < rows + MOST_LISTED => open_entries(h),
        b'E' if rows <= count => State::Over(stale_head(h, count)),
        _ => State::Dead,
    }
}

// The state behind an entry of a record that follows F.
#[tactic(auto, unfolding(crate::specs::Machine::entered))]
fn enter(h: Head, bound: u8, left: u8, b: u8) -> State
    ensures { result ≡ entered h bound left b }
{
    if bound <= b {
        return State::Dead;
    }
    if left <= 1 {
        return State::Body(h);
    }
    State::Entries {
        head: h,
        bound,
        left: left - 1,
    }
}

// The state behind one more byte. Laid into the loop of `scan`, where a file's bytes are gone over.
#[inline(always)]
#[tactic(auto, unfolding(crate::specs::Machine::after))]
pub fn behind(q: State, b: u8) -> State
    ensures { result ≡ after q b }
{
    match (q, b) {
        (State::Start, MARK) => State::Opening,
        (State::Opening, b'F') => State::Modulus,
        (State::Modulus, p) if is_prime(u32::from(p)) => State::Size(p),
        (State::Size(p), n) => size(p, n),
        (State::Body(h), MARK) => State::Letter(h),
        (State::Letter(h), b) => begin(h, b),
        (State::Entries { head, bound, left }, b) => enter(head, bound, left, b),
        (State::Over(_), _) => State::Dead,
        _ => State::Dead,
    }
}

// From a state reached at `from` on to the offset `to`, or as far as the bytes begin a well-formed case. Not laid into its callers: there its state would
// lie in memory, and not in registers.
#[inline(never)]
pub fn scan(s: &[u8], q: State, from: usize, to: usize) -> Scanned
    requires { Scans s.now from q × (from ≤ to) }
    ensures { ScanIs s.now from to result.at result.state }
{
    let mut state = q;
    let end = to.min(s.len());
    for at in from..end {
        let next = behind(state, s[at]);
        if let State::Dead = next {
            return Scanned { state, at };
        }
        state = next;
    }
    Scanned { state, at: end }
}
