// The refusal table: for each call the reason of the first test that applies, in the table's order.
#![tactic(auto, using(crate::proofs::Laws::tests), unfolding(meaning::specs::Refusal::inverse_refusal, meaning::specs::Refusal::order_refusal, meaning::specs::Refusal::image_refusal, meaning::specs::Refusal::stand_refusal, meaning::specs::Refusal::chain_refusal, meaning::specs::Refusal::period_refusal, meaning::specs::Writing::write_refusal))]

ghost use Rattle.std.specs.Prelude.{◌≡◌, [], ◌∷◌, ◌+◌, ◌*◌, ◌≤◌};
ghost use Rattle.meaning.specs.Bounds.{widest, most_candidates};
ghost use Rattle.meaning.specs.Refusal.{refuse, refuse_at, no_prime, no_size, no_matrix, no_rows, bad_entry, first};
ghost use Rattle.meaning.specs.Refusal.{inverse_refusal, order_refusal, image_refusal, stand_refusal, chain_refusal, period_refusal};
ghost use Rattle.meaning.specs.Writing.{write_refusal};
ghost use Rattle.reasons.specs.Reasons.{checked_of};

use reasons::Reason;

// The bytes of a case that are no row's: four of F, four of A and two of E.
const FRAME: usize = 10;

// What comes before the entries of a row: the mark and the letter.
const TAG: usize = 2;

// Tests 1, 2 and 3, which every call on a matrix runs first.
fn shape(p: u32, n: usize, m: &[u8]) -> Result<(), Reason>
    ensures { checked_of result ≡ first (refuse 1 (no_prime p) ∷ refuse 2 (no_size n) ∷ refuse 3 (no_matrix n m.now) ∷ []) }
{
    reasons::prime(p)?;
    reasons::size(n)?;
    reasons::matrix(n, m)
}

// All tests but the last of a call that takes a list of rows.
fn list(p: u32, n: usize, m: &[u8], cs: &[u8]) -> Result<(), Reason>
    ensures { checked_of result ≡ first (refuse 1 (no_prime p) ∷ refuse 2 (no_size n) ∷ refuse 3 (no_matrix n m.now) ∷ refuse 4 (no_rows n cs.now) ∷ refuse_at 5 (bad_entry p n m.now) ∷ refuse_at 10 (bad_entry p n cs.now) ∷ []) }
{
    shape(p, n, m)?;
    reasons::candidates(n, cs)?;
    reasons::matrix_entry(p, n, m)?;
    reasons::row_entry(p, n, cs)
}

// The refusal of the inverse call.
pub fn of_inverse(p: u32, a: u32) -> Result<(), Reason>
    ensures { checked_of result ≡ inverse_refusal p a }
{
    reasons::prime(p)?;
    reasons::scalar(p, a)
}

// The refusal of the order call.
pub fn of_order(p: u32, n: usize, m: &[u8], v: &[u8], out: &[u8]) -> Result<(), Reason>
    ensures { checked_of result ≡ order_refusal p n m.now v.now out.now }
{
    shape(p, n, m)?;
    reasons::vector(n, v)?;
    reasons::matrix_entry(p, n, m)?;
    reasons::row_entry(p, n, v)?;
    reasons::room(n + 1, out)
}

// The refusal of the image call.
pub fn of_image(p: u32, n: usize, m: &[u8], v: &[u8], f: &[u8], out: &[u8]) -> Result<(), Reason>
    ensures { checked_of result ≡ image_refusal p n m.now v.now f.now out.now }
{
    shape(p, n, m)?;
    reasons::vector(n, v)?;
    reasons::polynomial(f)?;
    reasons::matrix_entry(p, n, m)?;
    reasons::row_entry(p, n, v)?;
    reasons::coefficient(p, f)?;
    reasons::room(n, out)
}

// The refusal of the stand call.
pub fn of_stand(
    p: u32,
    n: usize,
    m: &[u8],
    cs: &[u8],
    poly: &[u8],
    image: &[u8],
) -> Result<(), Reason>
    ensures { checked_of result ≡ stand_refusal p n m.now cs.now poly.now image.now }
{
    list(p, n, m, cs)?;
    reasons::room(n + 1, poly)?;
    reasons::room(n, image)
}

// The refusal of the chain call.
pub fn of_chain(
    p: u32,
    n: usize,
    m: &[u8],
    cs: &[u8],
    product: &[u8],
    stages: &[u8],
) -> Result<(), Reason>
    ensures { checked_of result ≡ chain_refusal p n m.now cs.now product.now stages.now }
{
    list(p, n, m, cs)?;
    reasons::room(n + 1, product)?;
    reasons::room(2 * n, stages)
}

// The refusal of the period call.
pub fn of_period(p: u32, n: usize, m: &[u8]) -> Result<(), Reason>
    ensures { checked_of result ≡ period_refusal p n m.now }
{
    shape(p, n, m)?;
    reasons::matrix_entry(p, n, m)
}

// The length of a case with n rows, `count` candidates and an A record.
fn case_length(n: usize, count: usize) -> usize
    requires { (n ≤ widest) × (count ≤ most_candidates) }
    ensures { result ≡ 10 + (n + count) * (n + 2) }
{
    FRAME + (n + count) * (n + TAG)
}

// The refusal of the writer: the allowance is tested before the buffer, which is to hold the case.
pub fn of_write(
    p: u32,
    n: usize,
    m: &[u8],
    cs: &[u8],
    allowance: u32,
    out: &[u8],
) -> Result<(), Reason>
    ensures { checked_of result ≡ write_refusal p n m.now cs.now allowance out.now }
{
    list(p, n, m, cs)?;
    reasons::allowance(allowance)?;
    reasons::room(case_length(n, cs.len() / n), out)
}
