// Laying down a case (02, #101): F, A, the rows, the candidates and E, one behind another at the front of a buffer.
#![tactic(auto)]

ghost use Rattle.std.specs.Prelude.{◌≡◌, ◌∷◌, ◌+◌, ◌<◌, ◌≤◌, length};
ghost use Rattle.meaning.specs.Bytes.{byte_rows};
ghost use Rattle.meaning.specs.Writing.{WriteCall};
ghost use Rattle.reasons.specs.Reasons.{answer_of};
ghost use Rattle.writer.specs.Laying.{LaidAt, marked, WholeRows};

use meaning::{MARK, RADIX};
use reasons::Reason;

// The bytes of s over as many others, one by one. Where both are lent, `copy_from_slice` is a `memmove`, which the library for C is to do without.
fn copy(s: &[u8], to: &mut [u8])
    requires { length to.old ≡ length s.now }
    ensures { to.new ≡ s.now }
{
    for (i, b) in s.iter().enumerate() {
        to[i] = *b;
    }
}

// The bytes of s from `at` on. What is returned is the place behind them; a struct that holds buffer and place would need a clause on what it lends.
fn lay(s: &[u8], out: &mut [u8], at: usize) -> usize
    requires { at + length s.now ≤ length out.old }
    ensures { LaidAt out.old at s.now result out.new }
{
    let behind = at + s.len();
    copy(s, &mut out[at..behind]);
    behind
}

// One row's record: the mark, its letter, its entries.
fn lay_row(letter: u8, row: &[u8], out: &mut [u8], at: usize) -> usize
    requires { at + length (255 ∷ letter ∷ row.now) ≤ length out.old }
    ensures { LaidAt out.old at (255 ∷ letter ∷ row.now) result out.new }
{
    let tag = [MARK, letter];
    let behind = lay(&tag, out, at);
    lay(row, out, behind)
}

// The records of rows of n, one behind another.
fn lay_rows(letter: u8, n: usize, s: &[u8], out: &mut [u8], at: usize) -> usize
    requires whole_rows { WholeRows n s.now }
    requires s_in_bounds { at + length (marked letter (byte_rows n s.now)) ≤ length out.old }
    ensures { LaidAt out.old at (marked letter (byte_rows n s.now)) result out.new }
{
    let mut behind = at;
    for row in s.chunks_exact(n) {
        behind = lay_row(letter, row, out, behind);
    }
    behind
}

// The case with these values at the front of `out`, and its length; its A record has how often 128 goes into the allowance, and what is left over.
pub fn write(
    p: u32,
    n: usize,
    m: &[u8],
    cs: &[u8],
    allowance: u32,
    out: &mut [u8],
) -> Result<usize, Reason>
    ensures { WriteCall p n m.now cs.now allowance out.old (answer_of result) out.new }
{
    refusals::of_write(p, n, m, cs, allowance, out)?;
    let high = (allowance / RADIX) as u8;
    let low = (allowance % RADIX) as u8;
    let head = [MARK, b'F', p as u8, n as u8, MARK, b'A', high, low];
    let behind_head = lay(&head, out, 0);
    let behind_rows = lay_rows(b'R', n, m, out, behind_head);
    let behind_candidates = lay_rows(b'C', n, cs, out, behind_rows);
    let end = [MARK, b'E'];
    Ok(lay(&end, out, behind_candidates))
}
