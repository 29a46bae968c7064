// The call of the period: p | n | matrix.
use crate::{MATRIX_LENT, modulus, refuse, size};
use trial_lines::{Line, Unanswered};

pub fn answer(rt: &impl Print, line: Line) -> Result<(), Unanswered> {
    let mut m = [0u8; MATRIX_LENT];
    let m = line.fill(2, &mut m)?;
    match calls::period(modulus(line), size(line), m) {
        Ok(Some(t)) => print!(rt; " least {t}")?,
        Ok(None) => print!(rt; " never")?,
        Err(reason) => refuse(rt, reason)?,
    }
    Ok(())
}
