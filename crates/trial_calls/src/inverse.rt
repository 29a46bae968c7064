// The call of the inverse: p | scalar.
use crate::{modulus, refuse};
use std::io;
use trial_lines::Line;

pub fn answer(rt: &impl Print, line: Line) -> io::Result<()> {
    match calls::inverse(modulus(line), line.number(1)) {
        Ok(Some(b)) => print!(rt; " {b}"),
        Ok(None) => print!(rt; " none"),
        Err(reason) => refuse(rt, reason),
    }
}
