// The functions of `rows` and `matrix`: a modulus, then matrix, polynomial or rows, each in a group of its own.
use crate::{Failure, modulus};
use meaning::{COEFFICIENTS, MATRIX_ROOM, WIDEST};
use trial_lines::Line;

// p | entries: the place of the first entry that is p or more. p may be any number.
pub fn bad(rt: &impl Print, line: Line) -> Result<(), Failure> {
    let mut s = [0u8; MATRIX_ROOM];
    let s = line.fill(1, &mut s)?;
    match rows::first_bad(line.number(0), s) {
        Some(i) => print!(rt; " {i}")?,
        None => print!(rt; " none")?,
    }
    Ok(())
}

// p | matrix | row
pub fn advance(rt: &impl Print, line: Line) -> Result<(), Failure> {
    let mut m = [0u8; MATRIX_ROOM];
    let m = line.fill(1, &mut m)?;
    let mut v = [0u8; WIDEST];
    let v = line.fill(2, &mut v)?;
    let p = modulus(line)?;
    if m.len() != v.len() * v.len() {
        return Err(Failure::Refused);
    }
    matrix::advance(p, m, v);
    Ok(trial_lines::print_list(rt, v)?)
}

// p | matrix | polynomial | row. The buffer of the answer holds the row before the call.
pub fn image(rt: &impl Print, line: Line) -> Result<(), Failure> {
    let mut m = [0u8; MATRIX_ROOM];
    let m = line.fill(1, &mut m)?;
    let mut f = [0u8; COEFFICIENTS];
    let f = line.fill(2, &mut f)?;
    let mut v = [0u8; WIDEST];
    let v = line.fill(3, &mut v)?;
    let mut out = [0u8; WIDEST];
    let out = line.fill(3, &mut out)?;
    let p = modulus(line)?;
    if f.is_empty() || m.len() != v.len() * v.len() || out.len() != v.len() {
        return Err(Failure::Refused);
    }
    matrix::image(p, m, f, v, out);
    Ok(trial_lines::print_list(rt, out)?)
}

// p | row | row
pub fn dot(rt: &impl Print, line: Line) -> Result<(), Failure> {
    let mut a = [0u8; WIDEST];
    let a = line.fill(1, &mut a)?;
    let mut b = [0u8; WIDEST];
    let b = line.fill(2, &mut b)?;
    let p = modulus(line)?;
    if b.len() != a.len() {
        return Err(Failure::Refused);
    }
    Ok(print!(rt; " {}", matrix::dot(p, a, b))?)
}
