// Calls the function that each line of standard input names and prints the line's word and the answer, or `refused` where the function's
// `requires` does not hold. Comment lines, which begin with `#`, and empty ones are printed as they are. At most 65,536 bytes are read.
#![tactic(auto)]

mod polynomials;
mod scalars;
mod vectors;

ghost use Rattle.std.specs.Prelude.{◌<◌, IfOk};
ghost use Rattle.algebra.specs.Field.{Prime};

use std::io;
use trial_lines::{Line, TooLong, Unanswered};

// Why a function is not called, or its answer not printed.
#[derive(Drop)]
enum Failure {
    // What the function requires does not hold, or a group of the line has more numbers than there is room for.
    Refused,
    Output(io::Error),
}

impl From<TooLong> for Failure {
    fn from(_: TooLong) -> Failure {
        Failure::Refused
    }
}

impl From<io::Error> for Failure {
    fn from(error: io::Error) -> Failure {
        Failure::Output(error)
    }
}

// The modulus that follows the line's word: a byte above 0.
fn modulus(line: Line) -> Result<u8, Failure>
    ensures { IfOk result (λ p. 0 < p) }
{
    match u8::try_from(line.number(0)) {
        Ok(p) if p != 0 => Ok(p),
        _ => Err(Failure::Refused),
    }
}

// The prime that follows the line's word, up to 251.
fn prime(line: Line) -> Result<u8, Failure>
    ensures { IfOk result (λ p. Prime p) }
{
    let p = line.number(0);
    if scalar::is_prime(p) {
        return Ok(p as u8);
    }
    Err(Failure::Refused)
}

// Calls the function that the line's word names.
fn call(rt: &impl Print, line: Line) -> Result<(), Failure> {
    match line.word() {
        b"prime" => scalars::is_prime(rt, line),
        b"inverse" => scalars::inverse(rt, line),
        b"opposite" => scalars::opposite(rt, line),
        b"sum" => scalars::of_two(rt, line, |p, a, b| scalar::sum(p, a, b)),
        b"difference" => scalars::of_two(rt, line, |p, a, b| scalar::difference(p, a, b)),
        b"product" => scalars::of_two(rt, line, |p, a, b| scalar::product(p, a, b)),
        b"bad" => vectors::bad(rt, line),
        b"advance" => vectors::advance(rt, line),
        b"image" => vectors::image(rt, line),
        b"dot" => vectors::dot(rt, line),
        b"scale" => polynomials::scale(rt, line),
        b"monic" => polynomials::monic(rt, line),
        b"size" => polynomials::size(rt, line),
        b"shifted" => polynomials::shifted(rt, line),
        b"times" => polynomials::times(rt, line),
        b"divide" => polynomials::divide(rt, line),
        b"gcd" => polynomials::gcd(rt, line),
        b"lcm" => polynomials::lcm(rt, line),
        _ => Ok(print!(rt; " unknown")?),
    }
}

fn answer(rt: &impl Print, line: Line) -> Result<(), Unanswered> {
    match call(rt, line) {
        Ok(()) => Ok(()),
        Err(Failure::Refused) => Ok(print!(rt; " refused")?),
        Err(Failure::Output(error)) => Err(Unanswered::Output(error)),
    }
}

fn main(rt: HostRuntime) -> io::Result<()> {
    trial_lines::answer_lines(&rt, &mut [0u8; 65536], |line| answer(&rt, line))
}
