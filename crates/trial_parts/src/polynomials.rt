// The methods of `poly` and the functions of `division`: a prime, then polynomials, lowest coefficient first, and numbers, each in a group of its
// own. A polynomial has 1 to 65 coefficients, leading zeros allowed, and is printed up to its degree.
ghost use Rattle.std.specs.Prelude.{◌≡◌, ◌<◌, length, IfOk};
ghost use Rattle.algebra.specs.Field.{Prime};

use crate::{Failure, prime};
use meaning::COEFFICIENTS;
use poly::Polynomial;
use trial_lines::Line;

// The polynomial of a group.
fn parse(p: u8, line: Line, group: usize) -> Result<Polynomial, Failure>
    requires { Prime p }
    ensures { IfOk result (λ f. f.p ≡ p) }
{
    let mut c = [0u8; COEFFICIENTS];
    if line.fill(group, &mut c)?.is_empty() {
        return Err(Failure::Refused);
    }
    match rows::first_bad(u32::from(p), &c) {
        Some(_) => Err(Failure::Refused),
        None => Ok(Polynomial::made(c, p, COEFFICIENTS - 1)),
    }
}

// The polynomial behind the line's prime, modulo that prime.
fn first(line: Line) -> Result<Polynomial, Failure> {
    let p = prime(line)?;
    parse(p, line, 1)
}

// The two polynomials behind the line's prime, modulo that prime.
fn both(line: Line) -> Result<(Polynomial, Polynomial), Failure>
    ensures { IfOk result (λ r. r.1.p ≡ r.0.p) }
{
    let f = first(line)?;
    let g = parse(f.p, line, 2)?;
    Ok((f, g))
}

// The coefficients up to the degree.
fn show(rt: &impl Print, f: Polynomial) -> Result<(), Failure> {
    let c = f.c;
    Ok(trial_lines::print_list(rt, &c[..=f.deg])?)
}

// p | f | number
pub fn scale(rt: &impl Print, line: Line) -> Result<(), Failure> {
    let f = first(line)?;
    show(rt, f.scale(line.byte(2)))
}

// p | f
pub fn monic(rt: &impl Print, line: Line) -> Result<(), Failure> {
    let f = first(line)?;
    show(rt, f.make_monic())
}

// p | f
pub fn size(rt: &impl Print, line: Line) -> Result<(), Failure> {
    let f = first(line)?;
    Ok(print!(rt; " {}", f.size())?)
}

// p | f | g | number | places: f plus the number times x^places times g
pub fn shifted(rt: &impl Print, line: Line) -> Result<(), Failure> {
    let (f, g) = both(line)?;
    let places = usize::from(line.byte(4));
    if COEFFICIENTS <= g.deg + places {
        return Err(Failure::Refused);
    }
    show(rt, f.add_shifted(g, line.byte(3), places))
}

// p | f | g
pub fn times(rt: &impl Print, line: Line) -> Result<(), Failure> {
    let (f, g) = both(line)?;
    if COEFFICIENTS <= f.deg + g.deg {
        return Err(Failure::Refused);
    }
    show(rt, f.product(g))
}

// p | f | g: the quotient and the remainder
pub fn divide(rt: &impl Print, line: Line) -> Result<(), Failure> {
    let (f, g) = both(line)?;
    if g.size() == 0 {
        return Err(Failure::Refused);
    }
    let parts = division::divide(f, g);
    show(rt, parts.quo)?;
    print!(rt; " |")?;
    show(rt, parts.rem)
}

// p | f | g
pub fn gcd(rt: &impl Print, line: Line) -> Result<(), Failure> {
    let (f, g) = both(line)?;
    show(rt, division::gcd(f, g))
}

// p | f | g, of which both must be monic. The degree of the gcd tells that of the least common multiple, which is 64 at most.
pub fn lcm(rt: &impl Print, line: Line) -> Result<(), Failure> {
    let (f, g) = both(line)?;
    if f.c[f.deg] != 1 || g.c[g.deg] != 1 {
        return Err(Failure::Refused);
    }
    let h = division::gcd(f, g);
    if COEFFICIENTS + h.deg <= f.deg + g.deg {
        return Err(Failure::Refused);
    }
    show(rt, division::lcm(f, g))
}
