// The static library: each function of kinarsop, the face, under its name for C and with its clauses. A slice is a pointer and a length, and an answer is
// a struct by value. What a C programmer has to know is in include/kinarsop.h; nothing holds that file to this one but the trials from outside.
// Functions and clauses stand here once more: a static library exports, and no crate can use it.
#![tactic(auto)]

ghost use Rattle.std.specs.Prelude.{[], ◌∷◌};
ghost use Rattle.meaning.specs.Calls.{InverseCall, OrderCall, ImageCall, StandCall, ChainCall, PeriodCall};
ghost use Rattle.meaning.specs.Sheet.{SheetCall};
ghost use Rattle.meaning.specs.Writing.{WriteCall};
ghost use Rattle.kinarsop.specs.Face.{Alone, inverse_read, order_read, image_read, stand_numbers, stand_read, chain_read, period_read, sheet_read};
ghost use Rattle.kinarsop.specs.Face.{write_read};

use kinarsop::{
    ChainAnswer, InverseAnswer, OrderAnswer, PeriodAnswer, SheetAnswer, StandAnswer, WriteAnswer,
};
use reasons::Numbers;

// `kinarsop::kinarsop_inverse`.
#[unsafe(no_mangle)]
pub extern "C" fn kinarsop_inverse(p: u32, a: u32) -> InverseAnswer
    ensures inverse_call { InverseCall p a (inverse_read result) }
    ensures alone { Alone result.refusal (result.inverse ∷ []) }
{
    kinarsop::kinarsop_inverse(p, a)
}

// `kinarsop::kinarsop_order`.
#[unsafe(no_mangle)]
pub extern "C" fn kinarsop_order(
    p: u32,
    n: usize,
    m: &[u8],
    v: &[u8],
    out: &mut [u8],
) -> OrderAnswer
    ensures order_call { OrderCall p n m.now v.now out.old (order_read result) out.new }
    ensures alone { Alone result.refusal (result.degree ∷ []) }
{
    kinarsop::kinarsop_order(p, n, m, v, out)
}

// `kinarsop::kinarsop_image`.
#[unsafe(no_mangle)]
pub extern "C" fn kinarsop_image(
    p: u32,
    n: usize,
    m: &[u8],
    v: &[u8],
    f: &[u8],
    out: &mut [u8],
) -> Numbers
    ensures image_call { ImageCall p n m.now v.now f.now out.old (image_read result) out.new }
    ensures alone { Alone result [] }
{
    kinarsop::kinarsop_image(p, n, m, v, f, out)
}

// `kinarsop::kinarsop_stand`.
#[unsafe(no_mangle)]
pub extern "C" fn kinarsop_stand(
    p: u32,
    n: usize,
    m: &[u8],
    cs: &[u8],
    allowance: u32,
    poly: &mut [u8],
    image: &mut [u8],
) -> StandAnswer
    ensures stand_call { StandCall p n m.now cs.now allowance (poly.old, image.old) (stand_read result) (poly.new, image.new) }
    ensures alone { Alone result.refusal (stand_numbers result) }
{
    kinarsop::kinarsop_stand(p, n, m, cs, allowance, poly, image)
}

// `kinarsop::kinarsop_chain`.
#[unsafe(no_mangle)]
pub extern "C" fn kinarsop_chain(
    p: u32,
    n: usize,
    m: &[u8],
    cs: &[u8],
    product: &mut [u8],
    stages: &mut [u8],
) -> ChainAnswer
    ensures chain_call { ChainCall p n m.now cs.now (product.old, stages.old) (chain_read result) (product.new, stages.new) }
    ensures alone { Alone result.refusal (result.stages ∷ []) }
{
    kinarsop::kinarsop_chain(p, n, m, cs, product, stages)
}

// `kinarsop::kinarsop_period`.
#[unsafe(no_mangle)]
pub extern "C" fn kinarsop_period(p: u32, n: usize, m: &[u8]) -> PeriodAnswer
    ensures period_call { PeriodCall p n m.now (period_read result) }
    ensures alone { Alone result.refusal (result.period ∷ []) }
{
    kinarsop::kinarsop_period(p, n, m)
}

// `kinarsop::kinarsop_sheet`.
#[unsafe(no_mangle)]
pub extern "C" fn kinarsop_sheet(file: &[u8], out: &mut [u8]) -> SheetAnswer
    ensures sheet_call { SheetCall file.now out.old (sheet_read result) out.new }
    ensures alone { Alone result.refusal (result.length ∷ []) }
{
    kinarsop::kinarsop_sheet(file, out)
}

// `kinarsop::kinarsop_write`.
#[unsafe(no_mangle)]
pub extern "C" fn kinarsop_write(
    p: u32,
    n: usize,
    m: &[u8],
    cs: &[u8],
    allowance: u32,
    out: &mut [u8],
) -> WriteAnswer
    ensures write_call { WriteCall p n m.now cs.now allowance out.old (write_read result) out.new }
    ensures alone { Alone result.refusal (result.length ∷ []) }
{
    kinarsop::kinarsop_write(p, n, m, cs, allowance, out)
}
