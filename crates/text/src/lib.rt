// A text that grows. A line of it is a word, numbers, each behind a space, and a newline.
#![tactic(auto)]

ghost use Rattle.std.specs.Prelude.{◌≡◌, ℕ, List, [], ◌∷◌, ◌++◌, map};
ghost use Rattle.std.proofs.Common.{sym};
ghost use Rattle.std.proofs.lemmas.List.{map-id};
ghost use Rattle.meaning.specs.Line.{decimal, spaced};
ghost use Rattle.text.specs.Text.{HasRoom, line_of};

use std::marker::Model;

// What is printed in decimal.
pub trait Number: Copy {
    ghost value: { Self → ℕ };

    // The numbers of a list.
    ghost values: { List Self → List ℕ };

    fn as_usize(self) -> usize
        ensures { result ≡ value self };

    ghost each: { (s : List Self) → values s ≡ map value s };
}

impl Number for u8 {
    ghost value = { λ x. x };

    ghost values = { λ s. s };

    ghost each = { λ s. sym (map-id s) };

    fn as_usize(self) -> usize {
        usize::from(self)
    }
}

impl Number for usize {
    ghost value = { λ x. x };

    ghost values = { λ s. s };

    ghost each = { λ s. sym (map-id s) };

    fn as_usize(self) -> usize {
        self
    }
}

// Room for every sheet.
pub const ROOM: usize = 2048;

// The first `len` of the bytes are the text. They lie in an array, since nothing of the library is on a heap.
#[derive(Drop)]
pub struct Text {
    bytes: [u8; ROOM],
    len: usize,
}

impl Model for Text {
    ghost use Rattle.std.specs.Prelude.{List, ℕ, ◌≤◌, length, take};

    ghost Value = { List ℕ };

    ghost view = { λ t. take t.len t.bytes };

    ghost invariant = { λ t. t.len ≤ length t.bytes };
}

impl Text {
    // Nothing is printed.
    pub fn new() -> Text
        ensures { result ≡ [] }
    {
        Text {
            bytes: [0u8; ROOM],
            len: 0,
        }
    }

    // What is printed.
    pub fn as_bytes(&self) -> &[u8]
        ensures { result.now ≡ self.now }
    {
        &self.bytes[..self.len]
    }

    // One byte more.
    #[tactic(auto, using(crate::proofs::Laws::byte_laid), unfolding(meaning::specs::Sheet::sheet_room))]
    pub fn byte(&mut self, b: u8)
        requires { HasRoom self.old (b ∷ []) }
        ensures { self.new ≡ self.old ++ (b ∷ []) }
    {
        self.bytes[self.len] = b;
        self.len += 1;
    }

    // The bytes of a word.
    #[tactic(auto, unfolding(meaning::specs::Sheet::sheet_room))]
    pub fn word(&mut self, s: &[u8])
        requires { HasRoom self.old s.now }
        ensures { self.new ≡ self.old ++ s.now }
    {
        let end = self.len + s.len();
        self.bytes[self.len..end].copy_from_slice(s);
        self.len = end;
    }

    // A number in decimal, the highest digit first. `write!` would be no plainer: its error cannot come here, and it promises std's digits,
    // not those of `decimal`.
    fn number(&mut self, x: usize)
        requires { HasRoom self.old (decimal x) }
        ensures { self.new ≡ self.old ++ decimal x }
    {
        if x >= 10 {
            self.number(x / 10);
        }
        self.byte(b'0' + (x % 10) as u8);
    }

    // A number behind a space.
    #[tactic(auto, unfolding(meaning::specs::Line::spaced))]
    pub fn spaced_number(&mut self, x: usize)
        requires { HasRoom self.old (spaced (x ∷ [])) }
        ensures { self.new ≡ self.old ++ spaced (x ∷ []) }
    {
        self.byte(b' ');
        self.number(x);
    }

    // Numbers, each behind a space.
    pub fn numbers<T: Number>(&mut self, s: &[T])
        requires { HasRoom self.old (spaced (T.values s.now)) }
        ensures { self.new ≡ self.old ++ spaced (T.values s.now) }
    {
        for x in s {
            self.spaced_number(x.as_usize());
        }
    }

    // A line.
    pub fn line<T: Number>(&mut self, w: &[u8], s: &[T])
        requires { HasRoom self.old (line_of w.now (T.values s.now)) }
        ensures { self.new ≡ self.old ++ line_of w.now (T.values s.now) }
    {
        self.word(w);
        self.numbers(s);
        self.byte(b'\n');
    }
}
