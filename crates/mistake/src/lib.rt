// What is said of the first thing that is wrong in a design's text.
#![tactic(auto)]

ghost use Rattle.std.specs.Prelude.{◌≡◌, [], ◌∷◌, ◌++◌, ◌+◌, ◌≤◌, length};
ghost use Rattle.meaning.specs.Line.{spaced};
ghost use Rattle.meaning.specs.Mistake.{expected_words, mistake};
ghost use Rattle.design.specs.Expecting.{expected_as};
ghost use Rattle.design.specs.Drawn.{mistake_of};
ghost use Rattle.mistake.specs.Room.{before_words};

use design::{Expected, Mistake};
use meaning::MOST_ALLOWANCE;
use text::Text;

// A few words and a number.
fn numbered(t: &mut Text, w: &[u8], x: usize)
    requires before { length t.old ≤ before_words }
    requires few { length w.now ≤ before_words }
    ensures said { t.new ≡ t.old ++ (w.now ++ spaced (x ∷ [])) }
    ensures size { length t.new ≤ length t.old + length w.now + 21 }
{
    t.word(w);
    t.spaced_number(x);
}

// What was expected, behind a text that leaves room for it. An entry is below the prime.
#[tactic(auto, unfolding(meaning::specs::Sheet::sheet_room))]
fn words(t: &mut Text, e: Expected)
    requires { length t.old ≤ before_words }
    ensures { t.new ≡ t.old ++ expected_words (expected_as e) }
{
    match e {
        Expected::Field => t.word(b"the word field"),
        Expected::Prime => t.word(b"a prime from 2 to 251"),
        Expected::Size => t.word(b"a number from 1 to 64"),
        Expected::Entry(p) => {
            numbered(t, b"a number from 0 to", usize::from(p.saturating_sub(1)))
        },
        Expected::Allowance => numbered(t, b"a number from 0 to", MOST_ALLOWANCE as usize),
        Expected::LineEnd => t.word(b"the end of the line"),
        Expected::AllowanceOrRow => t.word(b"the word allowance or the word row"),
        Expected::Row => t.word(b"the word row"),
        Expected::CandidateOrEnd => t.word(b"the word candidate or the end of the text"),
        Expected::TextEnd => t.word(b"the end of the text"),
    }
}

// The line and the cell, and what was expected there.
#[tactic(auto, unfolding(meaning::specs::Sheet::sheet_room, meaning::specs::Mistake::mistake))]
pub fn message(m: Mistake) -> Text
    ensures { result ≡ mistake (mistake_of m).0 (mistake_of m).1 }
{
    let mut t = Text::new();
    numbered(&mut t, b"line", m.spot.line);
    numbered(&mut t, b", cell", m.spot.cell);
    t.word(b": expected ");
    words(&mut t, m.expected);
    t
}
