// The call of the order: p | n | matrix | row | buffer.
use crate::{MATRIX_LENT, ROW_LENT, modulus, refuse, show, size};
use trial_lines::{Line, Unanswered};

pub fn answer(rt: &impl Print, line: Line) -> Result<(), Unanswered> {
    let mut m = [0u8; MATRIX_LENT];
    let mut v = [0u8; ROW_LENT];
    let mut out = [0u8; ROW_LENT];
    let m = line.fill(2, &mut m)?;
    let v = line.fill(3, &mut v)?;
    let out = line.fill(4, &mut out)?;
    match calls::order(modulus(line), size(line), m, v, out) {
        Ok(degree) => print!(rt; " degree {degree}")?,
        Err(reason) => refuse(rt, reason)?,
    }
    show(rt, out)?;
    Ok(())
}
