// The call of the writer: p | n | matrix | candidates | allowance | buffer.
use crate::{LIST_LENT, MATRIX_LENT, modulus, refuse, show, size};
use trial_lines::{Line, Unanswered};

// Room for a buffer that is somewhat longer than the longest case.
const CASE_LENT: usize = 12800;

pub fn answer(rt: &impl Print, line: Line) -> Result<(), Unanswered> {
    let mut m = [0u8; MATRIX_LENT];
    let mut cs = [0u8; LIST_LENT];
    let mut out = [0u8; CASE_LENT];
    let m = line.fill(2, &mut m)?;
    let cs = line.fill(3, &mut cs)?;
    let out = line.fill(5, &mut out)?;
    match writer::write(modulus(line), size(line), m, cs, line.number(4), out) {
        Ok(length) => print!(rt; " length {length}")?,
        Err(reason) => refuse(rt, reason)?,
    }
    show(rt, out)?;
    Ok(())
}
