// The face for C and for Rust: each call of the library under a plain name, with numbers, slices and one struct for each answer. The number of
// `refusal` is 0 where the call is answered, else that of its refusal, with the row and the column of a bad entry, and then all else is 0. The crate
// kinarsop_c exports these functions to C, each under its name and with its clauses. The numbers that stand for what is not there, the flag and the
// structs that differ in a field's name alone are the C interface.
#![tactic(auto)]

ghost use Rattle.std.specs.Prelude.{◌≡◌, ◌≢◌, [], ◌∷◌};
ghost use Rattle.meaning.specs.Calls.{given, InverseCall, OrderCall, ImageCall, StandCall, ChainCall, PeriodCall};
ghost use Rattle.meaning.specs.Sheet.{SheetCall};
ghost use Rattle.meaning.specs.Writing.{WriteCall};
ghost use Rattle.meaning.specs.Refusal.{alone as numbered};
ghost use Rattle.reasons.specs.Reasons.{answer_of, numbers_of};
ghost use Rattle.calls.specs.Answers.{counted_as};
ghost use Rattle.kinarsop.specs.Face.{read_as, Alone, Placeless, standing_in, inverse_read, order_read, image_read, stand_numbers, stand_read, chain_read, period_read, sheet_read};
ghost use Rattle.kinarsop.specs.Face.{write_read};

use calls::{Counts, Stood};
use reasons::{Numbers, Reason};

// The number of an answered call.
const ANSWERED: u8 = 0;

// What stands in the place of an inverse where there is none. It is above every prime: no inverse is it, and a call that is given it as an entry or a
// scalar refuses it.
const NO_INVERSE: u8 = 255;

#[repr(C)]
#[derive(Drop)]
pub struct InverseAnswer {
    pub refusal: Numbers,
    pub inverse: u8,
}

#[repr(C)]
#[derive(Drop)]
pub struct OrderAnswer {
    pub refusal: Numbers,
    pub degree: usize,
}

// The witness is counted from 1, and 0 where the stand is proved.
#[repr(C)]
#[derive(Drop)]
pub struct StandAnswer {
    pub refusal: Numbers,
    pub proved: bool,
    pub degree: usize,
    pub taken: usize,
    pub spent: u32,
    pub witness: usize,
}

#[repr(C)]
#[derive(Drop)]
pub struct ChainAnswer {
    pub refusal: Numbers,
    pub stages: usize,
}

// The period is 0 where there is none.
#[repr(C)]
#[derive(Drop)]
pub struct PeriodAnswer {
    pub refusal: Numbers,
    pub period: u32,
}

#[repr(C)]
#[derive(Drop)]
pub struct SheetAnswer {
    pub refusal: Numbers,
    pub length: usize,
}

#[repr(C)]
#[derive(Drop)]
pub struct WriteAnswer {
    pub refusal: Numbers,
    pub length: usize,
}

// The refusal in the answer of a call that is not refused.
fn answered() -> Numbers
    ensures { result ≡ numbers_of (numbered 0) }
{
    Numbers::alone(ANSWERED)
}

// The numbers of an answer, and beside them its result, or `refused` where there is none.
fn told<T: Copy>(answer: Result<T, Reason>, refused: T) -> (Numbers, T)
    ensures read { read_as result.0 result.1 ≡ answer_of answer }
    ensures placeless { Placeless result.0 }
    ensures alone { result.0.number ≢ 0 → result.1 ≡ refused }
{
    match answer {
        Ok(given) => (answered(), given),
        Err(reason) => (reason.into(), refused),
    }
}

// `calls::inverse`.
pub fn kinarsop_inverse(p: u32, a: u32) -> InverseAnswer
    ensures inverse_call { InverseCall p a (inverse_read result) }
    ensures alone { Alone result.refusal (result.inverse ∷ []) }
{
    let (refusal, inverse) = told(calls::inverse(p, a), Some(0));
    InverseAnswer {
        refusal,
        inverse: inverse.unwrap_or(NO_INVERSE),
    }
}

// `calls::order`: the degree, and the coefficients at the front of `out`.
pub fn kinarsop_order(p: u32, n: usize, m: &[u8], v: &[u8], out: &mut [u8]) -> OrderAnswer
    ensures order_call { OrderCall p n m.now v.now out.old (order_read result) out.new }
    ensures alone { Alone result.refusal (result.degree ∷ []) }
{
    let (refusal, degree) = told(calls::order(p, n, m, v, out), 0);
    OrderAnswer { refusal, degree }
}

// `calls::image`: what is returned is the refusal alone, its number 0 where the image is written to `out`.
pub fn kinarsop_image(p: u32, n: usize, m: &[u8], v: &[u8], f: &[u8], out: &mut [u8]) -> Numbers
    ensures image_call { ImageCall p n m.now v.now f.now out.old (image_read result) out.new }
    ensures alone { Alone result [] }
{
    let (refusal, ()) = told(calls::image(p, n, m, v, f, out), ());
    refusal
}

// The answer of a stand that is not refused.
fn counted(proved: bool, counts: Counts, witness: usize) -> StandAnswer
    ensures result_value { stand_read result ≡ given (counted_as (standing_in proved) counts witness) }
    ensures refusal_value { result.refusal ≡ numbers_of (numbered 0) }
{
    StandAnswer {
        refusal: answered(),
        proved,
        degree: counts.degree,
        taken: counts.taken,
        spent: counts.spent,
        witness,
    }
}

// `calls::stand`: what it counts, the polynomial in `poly` and the image of the witness in `image`.
pub fn kinarsop_stand(
    p: u32,
    n: usize,
    m: &[u8],
    cs: &[u8],
    allowance: u32,
    poly: &mut [u8],
    image: &mut [u8],
) -> StandAnswer
    ensures stand_call { StandCall p n m.now cs.now allowance (poly.old, image.old) (stand_read result) (poly.new, image.new) }
    ensures alone { Alone result.refusal (stand_numbers result) }
{
    match calls::stand(p, n, m, cs, allowance, poly, image) {
        Ok(Stood::Proved(counts)) => counted(true, counts, 0),
        Ok(Stood::Short(counts, witness)) => counted(false, counts, witness),
        Err(reason) => StandAnswer {
            refusal: reason.into(),
            proved: false,
            degree: 0,
            taken: 0,
            spent: 0,
            witness: 0,
        },
    }
}

// `calls::chain`: the number of stages, their product in `product` and their record in `stages`.
pub fn kinarsop_chain(
    p: u32,
    n: usize,
    m: &[u8],
    cs: &[u8],
    product: &mut [u8],
    stages: &mut [u8],
) -> ChainAnswer
    ensures chain_call { ChainCall p n m.now cs.now (product.old, stages.old) (chain_read result) (product.new, stages.new) }
    ensures alone { Alone result.refusal (result.stages ∷ []) }
{
    let (refusal, count) = told(calls::chain(p, n, m, cs, product, stages), 0);
    ChainAnswer {
        refusal,
        stages: count,
    }
}

// `calls::period`.
pub fn kinarsop_period(p: u32, n: usize, m: &[u8]) -> PeriodAnswer
    ensures period_call { PeriodCall p n m.now (period_read result) }
    ensures alone { Alone result.refusal (result.period ∷ []) }
{
    let (refusal, period) = told(calls::period(p, n, m), None);
    PeriodAnswer {
        refusal,
        period: period.unwrap_or(0),
    }
}

// `sheet::sheet`: how many bytes of `out` are the text.
pub fn kinarsop_sheet(file: &[u8], out: &mut [u8]) -> SheetAnswer
    ensures sheet_call { SheetCall file.now out.old (sheet_read result) out.new }
    ensures alone { Alone result.refusal (result.length ∷ []) }
{
    let (refusal, length) = told(sheet::sheet(file, out), 0);
    SheetAnswer { refusal, length }
}

// `writer::write`: how many bytes of `out` are the case.
pub fn kinarsop_write(
    p: u32,
    n: usize,
    m: &[u8],
    cs: &[u8],
    allowance: u32,
    out: &mut [u8],
) -> WriteAnswer
    ensures write_call { WriteCall p n m.now cs.now allowance out.old (write_read result) out.new }
    ensures alone { Alone result.refusal (result.length ∷ []) }
{
    let (refusal, length) = told(writer::write(p, n, m, cs, allowance, out), 0);
    WriteAnswer { refusal, length }
}
