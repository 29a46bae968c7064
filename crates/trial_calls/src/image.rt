// The call of the image: p | n | matrix | row | polynomial | buffer.
use crate::{MATRIX_LENT, ROW_LENT, modulus, refuse, show, size};
use trial_lines::{Line, Unanswered};

pub fn answer(rt: &impl Print, line: Line) -> Result<(), Unanswered> {
    let mut m = [0u8; MATRIX_LENT];
    let mut v = [0u8; ROW_LENT];
    let mut f = [0u8; ROW_LENT];
    let mut out = [0u8; ROW_LENT];
    let m = line.fill(2, &mut m)?;
    let v = line.fill(3, &mut v)?;
    let f = line.fill(4, &mut f)?;
    let out = line.fill(5, &mut out)?;
    match calls::image(modulus(line), size(line), m, v, f, out) {
        Ok(()) => print!(rt; " written")?,
        Err(reason) => refuse(rt, reason)?,
    }
    show(rt, out)?;
    Ok(())
}
