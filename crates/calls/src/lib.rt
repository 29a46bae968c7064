// The calls, as a customer makes them. Every call answers for all inputs: what is wrong is refused with its reason, in the order of the refusal table,
// and a refused call changes no byte lent to it.
#![tactic(auto, using(crate::proofs::Laws::told))]

ghost use Rattle.std.specs.Prelude.{◌≡◌, ◌≤◌, length};
ghost use Rattle.meaning.specs.Bytes.{write};
ghost use Rattle.meaning.specs.Calls.{InverseCall, OrderCall, ImageCall, StandCall, ChainCall, PeriodCall};
ghost use Rattle.reasons.specs.Reasons.{answer_of};
ghost use Rattle.calls.specs.Answers.{stood_of};

use matrix::Machine;
use meaning::WIDEST;
use reasons::Reason;

// What a stand counts: the polynomial's degree, the rows taken, the products spent.
#[derive(Clone, Copy)]
pub struct Counts {
    pub degree: usize,
    pub taken: usize,
    pub spent: u32,
}

// A short stand has its witness, counted from 1.
#[derive(Clone, Copy)]
pub enum Stood {
    Proved(Counts),
    Short(Counts, usize),
}

// The bytes of `from` at the front of a buffer.
#[tactic(auto, unfolding(meaning::specs::Bytes::write))]
fn put(from: &[u8], out: &mut [u8])
    requires { length from.now ≤ length out.old }
    ensures { out.new ≡ write from.now out.old }
{
    out[..from.len()].copy_from_slice(from);
}

// The inverse of a scalar modulo p: the number from 1 to p − 1 that times the scalar is 1; none for 0.
pub fn inverse(p: u32, a: u32) -> Result<Option<u8>, Reason>
    ensures { InverseCall p a (answer_of result) }
{
    refusals::of_inverse(p, a)?;
    if a == 0 {
        return Ok(None);
    }
    Ok(Some(scalar::inverse(p as u8, a as u8)))
}

// The order of one row: the monic polynomial of least degree that sends it to zero, its n + 1 coefficients at the front of `out`.
pub fn order(p: u32, n: usize, m: &[u8], v: &[u8], out: &mut [u8]) -> Result<usize, Reason>
    ensures { OrderCall p n m.now v.now out.old (answer_of result) out.new }
{
    refusals::of_order(p, n, m, v, out)?;
    let machine = Machine { p: p as u8, n, m };
    let mut kept_rows = slots::blank_slots();
    let f = spin::spin(&machine, v, &mut kept_rows, 0);
    put(&f.c[..n + 1], out);
    Ok(f.deg)
}

// v·f(M), its n entries at the front of `out`.
pub fn image(p: u32, n: usize, m: &[u8], v: &[u8], f: &[u8], out: &mut [u8]) -> Result<(), Reason>
    ensures { ImageCall p n m.now v.now f.now out.old (answer_of result) out.new }
{
    refusals::of_image(p, n, m, v, f, out)?;
    matrix::image(p as u8, m, f, v, &mut out[..n]);
    Ok(())
}

// The stand: rows are taken from the front while the allowance pays for their products, and the least common multiple of their orders is marked
// proved where every unit row is sent to zero. Its n + 1 coefficients go to the front of `poly`, the n entries of the witness's image, or zeros, to
// that of `image`.
pub fn stand(
    p: u32,
    n: usize,
    m: &[u8],
    cs: &[u8],
    allowance: u32,
    poly: &mut [u8],
    image: &mut [u8],
) -> Result<Stood, Reason>
    ensures { StandCall p n m.now cs.now allowance (poly.old, image.old) (stood_of result) (poly.new, image.new) }
{
    refusals::of_stand(p, n, m, cs, poly, image)?;
    let machine = Machine { p: p as u8, n, m };
    let mut kept_rows = slots::blank_slots();
    let gathered = taken::take_rows(&machine, cs, allowance, &mut kept_rows);
    let f = gathered.poly;
    let witness = witness::witness(&machine, f, &mut kept_rows, gathered.known);
    let row = witness::witness_row(&machine, f, witness);
    put(&f.c[..n + 1], poly);
    put(&row[..n], image);
    let counts = Counts {
        degree: f.deg,
        taken: gathered.taken,
        spent: gathered.spent,
    };
    match witness {
        None => Ok(Stood::Proved(counts)),
        Some(i) => Ok(Stood::Short(counts, i)),
    }
}

// The chain of relative orders over the candidates in order, then the unit rows in order. The n + 1 coefficients of the stages' product go to the
// front of `product`; the stage record, zeros behind it up to 2n bytes, to that of `stages`.
pub fn chain(
    p: u32,
    n: usize,
    m: &[u8],
    cs: &[u8],
    product: &mut [u8],
    stages: &mut [u8],
) -> Result<usize, Reason>
    ensures { ChainCall p n m.now cs.now (product.old, stages.old) (answer_of result) (product.new, stages.new) }
{
    refusals::of_chain(p, n, m, cs, product, stages)?;
    let machine = Machine { p: p as u8, n, m };
    let links = stages::link(&machine, cs);
    put(&links.product.c[..n + 1], product);
    put(&links.record[..2 * n], stages);
    Ok(links.stages)
}

// The least t from 1 to 65,536 with the t-th power of M equal to the identity, or that there is none.
pub fn period(p: u32, n: usize, m: &[u8]) -> Result<Option<u32>, Reason>
    ensures { PeriodCall p n m.now (answer_of result) }
{
    refusals::of_period(p, n, m)?;
    Ok(period::period(p as u8, n, m))
}
