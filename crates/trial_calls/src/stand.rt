// The call of the stand: p | n | matrix | candidates | allowance | polynomial buffer | witness buffer.
use crate::{LIST_LENT, MATRIX_LENT, ROW_LENT, modulus, refuse, show, size};
use calls::{Counts, Stood};
use std::io;
use trial_lines::{Line, Unanswered};

pub fn answer(rt: &impl Print, line: Line) -> Result<(), Unanswered> {
    let mut m = [0u8; MATRIX_LENT];
    let mut cs = [0u8; LIST_LENT];
    let mut poly = [0u8; ROW_LENT];
    let mut image = [0u8; ROW_LENT];
    let m = line.fill(2, &mut m)?;
    let cs = line.fill(3, &mut cs)?;
    let poly = line.fill(5, &mut poly)?;
    let image = line.fill(6, &mut image)?;
    let allowance = line.number(4);
    match calls::stand(modulus(line), size(line), m, cs, allowance, poly, image) {
        Ok(Stood::Proved(counts)) => {
            print!(rt; " proved")?;
            show_counts(rt, counts)?;
        }
        Ok(Stood::Short(counts, witness)) => {
            print!(rt; " short")?;
            show_counts(rt, counts)?;
            print!(rt; " witness {witness}")?;
        }
        Err(reason) => refuse(rt, reason)?,
    }
    show(rt, poly)?;
    show(rt, image)?;
    Ok(())
}

fn show_counts(rt: &impl Print, c: Counts) -> io::Result<()> {
    print!(rt; " degree {} taken {} spent {}", c.degree, c.taken, c.spent)
}
