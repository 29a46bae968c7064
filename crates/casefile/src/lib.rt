// A whole case file (01, "Case file, house layout"), taken to its values record by record.
#![tactic(auto)]

ghost use Rattle.std.specs.Prelude.{◌≡◌, ◌+◌, ◌≤◌, length};
ghost use Rattle.std.proofs.Math.Seq.{paste};
ghost use Rattle.casefile.specs.Gathered.{Noting, Noted};
ghost use Rattle.casefile.specs.Reading.{ReadIs};

use meaning::{CANDIDATE_ROOM, MATRIX_ROOM, RADIX};
use reader::{Reader, Step, Stepped};

// The allowance without an A record.
const DEFAULT_ALLOWANCE: u32 = 8192;

// The numbers of a well-formed case; count is the number of candidates.
#[derive(Clone, Copy)]
pub struct Case {
    pub p: u32,
    pub n: usize,
    pub allowance: u32,
    pub count: usize,
}

// The numbers of the case, or the place of refusal 8; the matrix, row after row, n·n bytes; the candidates, n bytes each. Zeros behind these, and zeros
// alone where the file is refused: what the arrays hold then is promised too, so they stand beside the answer and not in it.
#[derive(Drop)]
pub struct Contents {
    pub answer: Result<Case, usize>,
    pub matrix: [u8; MATRIX_ROOM],
    pub candidates: [u8; CANDIDATE_ROOM],
}

// What the records so far come to: the numbers of their case, and how many R there were.
#[derive(Clone, Copy)]
struct Numbers {
    case: Case,
    rows: usize,
}

// One more record: its numbers go to those so far, its entries to the matrix m or to the candidates cs, behind those of the records before it, of which
// each has as many.
fn note(s: &[u8], r: Stepped, known: Numbers, m: &mut [u8], cs: &mut [u8]) -> Numbers
    requires { Noting s.now r known m.old cs.old }
    ensures { Noted s.now r known m.old cs.old result m.new cs.new }
{
    match r.step {
        Ok(Step::Field { p, n }) => Numbers {
            case: Case { p, n, ..known.case },
            ..known
        },
        Ok(Step::Allow { high, low }) => {
            let allowance = RADIX * u32::from(high) + u32::from(low);
            Numbers {
                case: Case {
                    allowance,
                    ..known.case
                },
                ..known
            }
        }
        Ok(Step::Row) => {
            let row = reader::entries(s, r);
            let at = known.rows * row.len();
            m[at..at + row.len()].copy_from_slice(row);
            Numbers {
                rows: known.rows + 1,
                ..known
            }
        }
        Ok(Step::Candidate) => {
            let row = reader::entries(s, r);
            let at = known.case.count * row.len();
            cs[at..at + row.len()].copy_from_slice(row);
            Numbers {
                case: Case {
                    count: known.case.count + 1,
                    ..known.case
                },
                ..known
            }
        }
        _ => known,
    }
}

// A whole file taken to its values, a step at a time.
pub fn read(s: &[u8]) -> Contents
    ensures { ReadIs s.now result }
{
    let mut matrix = [0u8; MATRIX_ROOM];
    let mut candidates = [0u8; CANDIDATE_ROOM];
    let mut known = Numbers {
        case: Case {
            p: 0,
            n: 0,
            allowance: DEFAULT_ALLOWANCE,
            count: 0,
        },
        rows: 0,
    };
    let mut reader = Reader::new(s);
    loop {
        let stepped = reader.next();
        let step = match stepped.step {
            Ok(step) => step,
            Err(place) => {
                return Contents {
                    answer: Err(place),
                    matrix: [0u8; MATRIX_ROOM],
                    candidates: [0u8; CANDIDATE_ROOM],
                };
            }
        };
        if let Step::Over = step {
            return Contents {
                answer: Ok(known.case),
                matrix,
                candidates,
            };
        }
        known = note(s, stepped, known, &mut matrix, &mut candidates);
    }
}
