// The call of the chain: p | n | matrix | candidates | product buffer | stage buffer.
use crate::{LIST_LENT, MATRIX_LENT, ROW_LENT, modulus, refuse, show, size};
use trial_lines::{Line, Unanswered};

pub fn answer(rt: &impl Print, line: Line) -> Result<(), Unanswered> {
    let mut m = [0u8; MATRIX_LENT];
    let mut cs = [0u8; LIST_LENT];
    let mut product = [0u8; ROW_LENT];
    let mut stages = [0u8; ROW_LENT];
    let m = line.fill(2, &mut m)?;
    let cs = line.fill(3, &mut cs)?;
    let product = line.fill(4, &mut product)?;
    let stages = line.fill(5, &mut stages)?;
    match calls::chain(modulus(line), size(line), m, cs, product, stages) {
        Ok(count) => print!(rt; " stages {count}")?,
        Err(reason) => refuse(rt, reason)?,
    }
    show(rt, product)?;
    show(rt, stages)?;
    Ok(())
}
