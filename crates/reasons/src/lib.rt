// Why a call is refused: each test of the refusal table by itself, and a reason as the documents number it. The tests take p, n and the lists apart, as
// they come: whether they make a machine is what is tested.
#![tactic(auto)]

ghost use Rattle.std.specs.Prelude.{◌≡◌, ◌<◌, ◌≤◌, option_map};
ghost use Rattle.meaning.specs.Refusal.{refuse, refuse_at, no_prime, no_size, no_matrix, no_rows, no_vector, no_polynomial, bad_entry, bad_coefficient};
ghost use Rattle.meaning.specs.Refusal.{bad_scalar, no_allowance, too_short, alone as numbered};
ghost use Rattle.meaning.specs.Bounds.{widest};
ghost use Rattle.reasons.specs.Reasons.{as_refusal, numbers_of, checked_of, cell_of};

use meaning::{COEFFICIENTS, MOST_ALLOWANCE, MOST_CANDIDATES, WIDEST};

// The row and the column of an entry, counted from 1.
#[derive(Clone, Copy)]
pub struct Cell {
    pub row: usize,
    pub column: usize,
}

// Why a call is refused, in the table's order. An entry that is p or more comes with its row and its column; a coefficient with its place, the lowest
// being 1, and a scalar is like the one coefficient of a polynomial.
#[derive(Clone, Copy)]
pub enum Reason {
    NoPrime,
    NoSize,
    NoMatrix,
    NoRows,
    NoPolynomial,
    MatrixEntry(Cell),
    RowEntry(Cell),
    Coefficient(usize),
    NoAllowance,
    NoRoom,
}

// A reason as the documents number it: `row` and `column` are 0 but for a bad entry. It is part of every answer of the face.
#[repr(C)]
#[derive(Clone, Copy)]
pub struct Numbers {
    pub number: u8,
    pub row: usize,
    pub column: usize,
}

impl Numbers {
    // A number that comes without a row and a column.
    pub fn alone(number: u8) -> Numbers
        ensures { result ≡ numbers_of (numbered number) }
    {
        Numbers {
            number,
            row: 0,
            column: 0,
        }
    }
}

// The number of a reason, with the row and the column of a bad entry.
impl From<Reason> for Numbers {
    ghost from_gives = { λ r n. n ≡ numbers_of (as_refusal r) };

    fn from(reason: Reason) -> Numbers {
        match reason {
            Reason::NoPrime => Numbers::alone(1),
            Reason::NoSize => Numbers::alone(2),
            Reason::NoMatrix => Numbers::alone(3),
            Reason::NoRows => Numbers::alone(4),
            Reason::NoPolynomial => Numbers::alone(7),
            Reason::MatrixEntry(cell) => Numbers {
                number: 5,
                row: cell.row,
                column: cell.column,
            },
            Reason::RowEntry(cell) => Numbers {
                number: 10,
                row: cell.row,
                column: cell.column,
            },
            Reason::Coefficient(place) => Numbers {
                number: 11,
                row: 0,
                column: place,
            },
            Reason::NoAllowance => Numbers::alone(9),
            Reason::NoRoom => Numbers::alone(6),
        }
    }
}

// Test 1.
pub fn prime(p: u32) -> Result<(), Reason>
    ensures { checked_of result ≡ refuse 1 (no_prime p) }
{
    if !scalar::is_prime(p) {
        return Err(Reason::NoPrime);
    }
    Ok(())
}

// Test 2.
pub fn size(n: usize) -> Result<(), Reason>
    ensures { checked_of result ≡ refuse 2 (no_size n) }
{
    if n < 1 || WIDEST < n {
        return Err(Reason::NoSize);
    }
    Ok(())
}

// Test 3, of a size that is sound.
pub fn matrix(n: usize, m: &[u8]) -> Result<(), Reason>
    requires { n ≤ widest }
    ensures { checked_of result ≡ refuse 3 (no_matrix n m.now) }
{
    if m.len() != n * n {
        return Err(Reason::NoMatrix);
    }
    Ok(())
}

// Test 4 of a call that takes one row.
pub fn vector(n: usize, v: &[u8]) -> Result<(), Reason>
    ensures { checked_of result ≡ refuse 4 (no_vector n v.now) }
{
    if v.len() != n {
        return Err(Reason::NoRows);
    }
    Ok(())
}

// Test 4 of a call that takes a list of rows.
pub fn candidates(n: usize, cs: &[u8]) -> Result<(), Reason>
    requires { 0 < n }
    ensures { checked_of result ≡ refuse 4 (no_rows n cs.now) }
{
    if cs.len() % n != 0 || MOST_CANDIDATES < cs.len() / n {
        return Err(Reason::NoRows);
    }
    Ok(())
}

// Test 7.
pub fn polynomial(f: &[u8]) -> Result<(), Reason>
    ensures { checked_of result ≡ refuse 7 (no_polynomial f.now) }
{
    if f.is_empty() || COEFFICIENTS < f.len() {
        return Err(Reason::NoPolynomial);
    }
    Ok(())
}

// The first entry of s that is p or more, s being rows of n.
fn bad_entry(p: u32, n: usize, s: &[u8]) -> Option<Cell>
    requires { 0 < n }
    ensures { option_map cell_of result ≡ bad_entry p n s.now }
{
    let i = rows::first_bad(p, s)?;
    Some(Cell {
        row: 1 + i / n,
        column: 1 + i % n,
    })
}

// Test 5.
pub fn matrix_entry(p: u32, n: usize, m: &[u8]) -> Result<(), Reason>
    requires { 0 < n }
    ensures { checked_of result ≡ refuse_at 5 (bad_entry p n m.now) }
{
    match bad_entry(p, n, m) {
        Some(cell) => Err(Reason::MatrixEntry(cell)),
        None => Ok(()),
    }
}

// Test 10, of one row or of a list of rows.
pub fn row_entry(p: u32, n: usize, s: &[u8]) -> Result<(), Reason>
    requires { 0 < n }
    ensures { checked_of result ≡ refuse_at 10 (bad_entry p n s.now) }
{
    match bad_entry(p, n, s) {
        Some(cell) => Err(Reason::RowEntry(cell)),
        None => Ok(()),
    }
}

// Test 11 of coefficients.
pub fn coefficient(p: u32, f: &[u8]) -> Result<(), Reason>
    ensures { checked_of result ≡ refuse_at 11 (bad_coefficient p f.now) }
{
    match rows::first_bad(p, f) {
        Some(i) => Err(Reason::Coefficient(1 + i)),
        None => Ok(()),
    }
}

// Test 11 of a scalar.
pub fn scalar(p: u32, a: u32) -> Result<(), Reason>
    ensures { checked_of result ≡ refuse_at 11 (bad_scalar p a) }
{
    if p <= a {
        return Err(Reason::Coefficient(1));
    }
    Ok(())
}

// Test 9.
pub fn allowance(a: u32) -> Result<(), Reason>
    ensures { checked_of result ≡ refuse 9 (no_allowance a) }
{
    if MOST_ALLOWANCE < a {
        return Err(Reason::NoAllowance);
    }
    Ok(())
}

// Test 6 of one buffer that is to hold k bytes.
pub fn room(k: usize, out: &[u8]) -> Result<(), Reason>
    ensures { checked_of result ≡ refuse 6 (too_short k out.now) }
{
    if out.len() < k {
        return Err(Reason::NoRoom);
    }
    Ok(())
}
