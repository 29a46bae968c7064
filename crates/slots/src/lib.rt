// The slots that kept rows lie in, one behind the other: what `echelon`, `coordinates` read and `store` writes.
#![tactic(auto)]

ghost use Rattle.std.specs.Prelude.{◌≡◌, ℕ, ◌-◌, ◌≤◌, length, get_or, take, drop, replicate};
ghost use Rattle.meaning.specs.Bounds.{widest};
ghost use Rattle.slots.specs.Slots.{blank};

use meaning::WIDEST;

// A kept row with its leading place, the inverse of the entry that was there, whether a stage ends with it, what was taken of the rows kept before
// it, and, where a stage ends, the relation: the coordinates of the stage's next power.
#[derive(Clone, Copy)]
pub struct Slot {
    pub lead: u8,
    pub scale: u8,
    pub ends: bool,
    pub row: [u8; WIDEST],
    pub taken: [u8; WIDEST],
    pub relation: [u8; WIDEST],
}

// A slot that no row was put in.
pub const BLANK: Slot = Slot {
    lead: 0,
    scale: 0,
    ends: false,
    row: [0; WIDEST],
    taken: [0; WIDEST],
    relation: [0; WIDEST],
};

// As many blank slots as a machine can have rows. A function, since what it hands back is one stretch of zeros, where an array written in place is
// written slot by slot: that is felt at machines of few rows.
#[inline]
pub fn blank_slots() -> [Slot; WIDEST]
    ensures { result ≡ replicate widest blank }
{
    [BLANK; WIDEST]
}

// The bytes of a row from one place up to another. As a parameter they are known to be bytes, which of a slot's field is not known.
#[inline]
pub fn part(row: &[u8], from: usize, to: usize) -> &[u8]
    requires order { from ≤ to }
    requires within { to ≤ length row.now }
    ensures part { result.now ≡ take (to - from) (drop from row.now) }
    ensures most { (i : ℕ) → get_or result.now i 0 ≤ 255 }
{
    &row[from..to]
}
