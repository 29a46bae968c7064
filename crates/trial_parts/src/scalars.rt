// The functions of `scalar`: a modulus, then the arguments, each in a group of its own.
ghost use Rattle.std.specs.Prelude.{◌<◌, ℕ};

use crate::{Failure, modulus, prime};
use trial_lines::Line;

pub fn is_prime(rt: &impl Print, line: Line) -> Result<(), Failure> {
    if scalar::is_prime(line.number(0)) {
        print!(rt; " yes")?;
    } else {
        print!(rt; " no")?;
    }
    Ok(())
}

// The inverse is asked for modulo a prime only, and of no scalar that is 0.
pub fn inverse(rt: &impl Print, line: Line) -> Result<(), Failure> {
    let p = prime(line)?;
    let a = line.byte(1);
    if a == 0 || p <= a {
        return Err(Failure::Refused);
    }
    Ok(print!(rt; " {}", scalar::inverse(p, a))?)
}

pub fn opposite(rt: &impl Print, line: Line) -> Result<(), Failure> {
    let p = modulus(line)?;
    Ok(print!(rt; " {}", scalar::opposite(p, line.byte(1)))?)
}

// A function of a modulus and two scalars.
pub fn of_two<F: Fn(u8, u8, u8) -> u8>(rt: &impl Print, line: Line, f: F) -> Result<(), Failure>
    requires { (p a b : ℕ) → 0 < p → F.pre f p a b }
{
    let p = modulus(line)?;
    Ok(print!(rt; " {}", f(p, line.byte(1), line.byte(2)))?)
}
