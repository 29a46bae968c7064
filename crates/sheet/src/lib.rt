// The sheet of a case: the lines that 01 lists for the program `stand`, laid down from what the calls answer.
#![tactic(auto)]

ghost use Rattle.std.specs.Prelude.{◌≡◌, [], ◌∷◌, ◌++◌, ◌+◌, ◌≤◌, length};
ghost use Rattle.meaning.specs.Ascii.{ascii};
ghost use Rattle.meaning.specs.Bounds.{Sound, SoundRows};
ghost use Rattle.meaning.specs.Line.{text as bytes_of};
ghost use Rattle.meaning.specs.Sheet.{SheetCall};
ghost use Rattle.reasons.specs.Reasons.{answer_of};
ghost use Rattle.text.specs.Text.{HasRoom, line_of};
ghost use Rattle.sheet.specs.Lines.{proved_lines, short_lines, stood_lines, StoodFits, StagesIn, stage_lines_in, chained_lines, perioded_lines, CaseText, FileText};

use calls::{Counts, Stood};
use casefile::Contents;
use meaning::{COEFFICIENTS, STAGE_RECORD, WIDEST};
use reasons::Reason;
use text::Text;

// A buffer of so many bytes has room for every sheet.
pub const ROOM: usize = text::ROOM;

// STAGE with the coefficients of a stage and its leading 1. Not `Text::line`, which takes its numbers from one slice; so with WITNESS below.
fn stage_line(t: &mut Text, s: &[u8])
    requires { HasRoom t.old (line_of (ascii "STAGE") (s.now ++ (1 ∷ []))) }
    ensures { t.new ≡ t.old ++ line_of (ascii "STAGE") (s.now ++ (1 ∷ [])) }
{
    t.word(b"STAGE");
    t.numbers(s);
    t.spaced_number(1);
    t.byte(b'\n');
}

// A line for each stage of the record: a degree byte, then that many coefficients.
fn stage_lines(t: &mut Text, count: usize, stages: &[u8])
    requires stages_in { StagesIn count stages.now }
    requires has_room { HasRoom t.old (bytes_of (stage_lines_in count stages.now)) }
    ensures { t.new ≡ t.old ++ bytes_of (stage_lines_in count stages.now) }
{
    let mut at = 0;
    for _ in 0..count {
        let from = at + 1;
        at = from + usize::from(stages[at]);
        stage_line(t, &stages[from..at]);
    }
}

// WITNESS with the index, counted from 1, and the entries of the image. It is no `Text::line`, nor is a STAGE line: their numbers lie in two places.
fn witness_line(t: &mut Text, w: usize, image: &[u8])
    requires { HasRoom t.old (line_of (ascii "WITNESS") (w ∷ image.now)) }
    ensures { t.new ≡ t.old ++ line_of (ascii "WITNESS") (w ∷ image.now) }
{
    t.word(b"WITNESS");
    t.spaced_number(w);
    t.numbers(image);
    t.byte(b'\n');
}

// The lines of a proved stand: the coefficients are those of the minimal polynomial, up to its leading 1.
#[tactic(auto, unfolding(meaning::specs::Line::text, meaning::specs::Line::line_bytes, meaning::specs::Line::spaced))]
fn proved_lines(t: &mut Text, c: Counts, poly: &[u8])
    requires degree_in_bounds { c.degree + 1 ≤ length poly.now }
    requires has_room { HasRoom t.old (bytes_of (proved_lines c poly.now)) }
    ensures { t.new ≡ t.old ++ bytes_of (proved_lines c poly.now) }
{
    t.line(b"STAND proved", &[c.taken, c.spent as usize]);
    t.line(b"MINPOLY", &poly[..c.degree + 1]);
    t.word(b"WITNESS none\n");
}

// The lines of a short one: its polynomial is a divisor, and the witness shows that it is another.
#[tactic(auto, unfolding(meaning::specs::Line::text, meaning::specs::Line::line_bytes))]
fn short_lines(t: &mut Text, n: usize, c: Counts, w: usize, poly: &[u8], image: &[u8])
    requires degree_in_bounds { (c.degree + 1 ≤ length poly.now) × (n ≤ length image.now) }
    requires has_room { HasRoom t.old (bytes_of (short_lines n c w poly.now image.now)) }
    ensures { t.new ≡ t.old ++ bytes_of (short_lines n c w poly.now image.now) }
{
    t.line(b"STAND short", &[c.taken, c.spent as usize]);
    t.line(b"DIVISOR", &poly[..c.degree + 1]);
    witness_line(t, w, &image[..n]);
}

// The lines of the stand.
fn stand_lines(t: &mut Text, n: usize, stood: Stood, poly: &[u8], image: &[u8])
    requires stood_fits { StoodFits n stood poly.now image.now }
    requires has_room { HasRoom t.old (bytes_of (stood_lines n stood poly.now image.now)) }
    ensures { t.new ≡ t.old ++ bytes_of (stood_lines n stood poly.now image.now) }
{
    match stood {
        Stood::Proved(c) => proved_lines(t, c, poly),
        Stood::Short(c, w) => short_lines(t, n, c, w, poly, image),
    }
}

// The lines of a chain of so many stages.
fn chain_lines(t: &mut Text, n: usize, count: usize, product: &[u8], stages: &[u8])
    requires size_in_bounds { n + 1 ≤ length product.now }
    requires stages_in { StagesIn count stages.now }
    requires has_room { HasRoom t.old (bytes_of (chained_lines n count product.now stages.now)) }
    ensures { t.new ≡ t.old ++ bytes_of (chained_lines n count product.now stages.now) }
{
    stage_lines(t, count, stages);
    t.line(b"CHAIN", &product[..n + 1]);
}

// The line of the period.
fn period_line(t: &mut Text, period: Option<u32>)
    requires { HasRoom t.old (bytes_of (perioded_lines period)) }
    ensures { t.new ≡ t.old ++ bytes_of (perioded_lines period) }
{
    match period {
        Some(k) => t.line(b"PERIOD", &[k as usize]),
        None => t.word(b"PERIOD none\n"),
    }
}

// The sheet of a case with these values: no call refuses them.
fn case_text(p: u32, n: usize, m: &[u8], cs: &[u8], allowance: u32) -> Text
    requires sound { Sound p n m.now }
    requires sound_rows { SoundRows p n cs.now }
    ensures { CaseText p n m.now cs.now allowance result }
{
    let mut poly = [0u8; COEFFICIENTS];
    let mut image = [0u8; WIDEST];
    let mut product = [0u8; COEFFICIENTS];
    let mut stages = [0u8; STAGE_RECORD];
    let stood = calls::stand(p, n, m, cs, allowance, &mut poly, &mut image).unwrap();
    let count = calls::chain(p, n, m, cs, &mut product, &mut stages).unwrap();
    let period = calls::period(p, n, m).unwrap();
    let mut t = Text::new();
    t.line(b"FIELD", &[p as usize, n]);
    stand_lines(&mut t, n, stood, &poly, &image);
    chain_lines(&mut t, n, count, &product, &stages);
    period_line(&mut t, period);
    t
}

// The sheet of a file: that of its case, or the REFUSED line with the place.
fn file_text(file: &[u8]) -> Text
    ensures { FileText file.now result }
{
    // Taken apart, so that the arrays are not copied into one more struct.
    let Contents {
        answer,
        matrix,
        candidates,
    } = casefile::read(file);
    match answer {
        Ok(case) => {
            let matrix = &matrix[..case.n * case.n];
            let candidates = &candidates[..case.count * case.n];
            case_text(case.p, case.n, matrix, candidates, case.allowance)
        }
        Err(place) => {
            let mut t = Text::new();
            t.line(b"REFUSED", &[place]);
            t
        }
    }
}

// The sheet of a case file: the lines that the program `stand` prints, at the front of `out`, and how many bytes they are. Refused where `out`
// has not the room for every sheet.
pub fn sheet(file: &[u8], out: &mut [u8]) -> Result<usize, Reason>
    ensures { SheetCall file.now out.old (answer_of result) out.new }
{
    reasons::room(ROOM, out)?;
    let t = file_text(file);
    let bytes = t.as_bytes();
    out[..bytes.len()].copy_from_slice(bytes);
    Ok(bytes.len())
}
