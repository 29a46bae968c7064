// A design's text taken to the values of its case, or to the first thing that is wrong in it.
#![tactic(auto)]

ghost use Rattle.std.specs.Prelude.{◌≡◌};
ghost use Rattle.design.specs.Drawn.{DesignIs, MadeIs};
ghost use Rattle.scan.specs.declared.State.TheVariants.{Letter};
ghost use Rattle.design.specs.Expecting.{expected_as, expected_of};

use casefile::{Case, Contents};
use meaning::{CANDIDATE_ROOM, LONGEST_CASE, MATRIX_ROOM, MOST_CANDIDATES, RADIX};
use reasons::Reason;
use scan::{Head, State};
use spelling::Spot;

// What may come at a spot of a text. An entry is below the prime.
#[derive(Clone, Copy)]
pub enum Expected {
    Field,
    Prime,
    Size,
    Entry(u8),
    Allowance,
    LineEnd,
    AllowanceOrRow,
    Row,
    CandidateOrEnd,
    TextEnd,
}

// The first thing that is wrong in a text: its spot, and what was expected there.
#[derive(Clone, Copy)]
pub struct Mistake {
    pub spot: Spot,
    pub expected: Expected,
}

// The numbers of the case, or the first thing that is wrong; the matrix, row after row, n·n bytes; the candidates, n bytes each. Zeros behind these, and
// zeros alone where something is wrong: what the arrays hold then is promised too, so they stand beside the answer and not in it.
#[derive(Drop)]
pub struct Design {
    pub answer: Result<Case, Mistake>,
    pub matrix: [u8; MATRIX_ROOM],
    pub candidates: [u8; CANDIDATE_ROOM],
}

// The words that may come where a line begins.
#[tactic(auto, unfolding(crate::specs::Expecting::expected_of))]
fn due_word(h: Head) -> Expected
    ensures { expected_as result ≡ expected_of (Letter h) }
{
    let rows = u32::from(h.n);
    if h.count < rows {
        if h.fresh {
            Expected::AllowanceOrRow
        } else {
            Expected::Row
        }
    } else if h.count < rows + MOST_CANDIDATES as u32 {
        Expected::CandidateOrEnd
    } else {
        Expected::TextEnd
    }
}

// What may come in a state of the scan. Nothing comes behind E, and a text says no such state before its end.
#[tactic(auto, using(crate::proofs::Tests::due_line_end), unfolding(crate::specs::Expecting::expected_of))]
fn due(q: State) -> Expected
    ensures { expected_as result ≡ expected_of q }
{
    match q {
        State::Opening => Expected::Field,
        State::Modulus => Expected::Prime,
        State::Size(_) => Expected::Size,
        State::Letter(h) => due_word(h),
        State::Entries { bound, .. } if u32::from(bound) == RADIX => Expected::Allowance,
        State::Entries { bound, .. } => Expected::Entry(bound),
        _ => Expected::LineEnd,
    }
}

// A text taken to the values of its case, or to the first thing that is wrong. Bytes that begin a case up to the end of the text are one, so reading them
// gives its numbers.
pub fn read(text: &[u8]) -> Design
    ensures { DesignIs text.now result }
{
    let mut bytes = [0u8; LONGEST_CASE];
    let trace = spelling::spell(text, &mut bytes);
    if let Some(spot) = trace.wrong {
        let expected = due(trace.state);
        return Design {
            answer: Err(Mistake { spot, expected }),
            matrix: [0u8; MATRIX_ROOM],
            candidates: [0u8; CANDIDATE_ROOM],
        };
    }
    let Contents {
        answer,
        matrix,
        candidates,
    } = casefile::read(&bytes[..trace.count]);
    Design {
        answer: Ok(answer.unwrap()),
        matrix,
        candidates,
    }
}

// The case of a text at the front of `out`, its A record always written out: what the writer answers for its values, or the first thing that is wrong, and
// then nothing is written.
pub fn make(text: &[u8], out: &mut [u8]) -> Result<Result<usize, Reason>, Mistake>
    ensures { MadeIs text.now out.old result out.new }
{
    let design = read(text);
    let case = design.answer?;
    let matrix = &design.matrix[..case.n * case.n];
    let candidates = &design.candidates[..case.count * case.n];
    Ok(writer::write(case.p, case.n, matrix, candidates, case.allowance, out))
}
