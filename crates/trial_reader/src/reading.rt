// A whole file: file.
ghost use Rattle.std.specs.Prelude.{◌≤◌, length};

use crate::{FILE_LENT, refuse};
use casefile::Case;
use std::io;
use trial_lines::{Line, Unanswered};

// The closure prints the bytes that the file came to, as they are or how many.
pub fn answer<F: Fn(&[u8]) -> io::Result<()>>(
    rt: &impl Print,
    line: Line,
    print_bytes: F,
) -> Result<(), Unanswered>
    requires { F.IsAlwaysCallable print_bytes }
{
    let mut file = [0u8; FILE_LENT];
    let file = line.fill(0, &mut file)?;
    let contents = casefile::read(file);
    let matrix = contents.matrix;
    let candidates = contents.candidates;
    match contents.answer {
        Ok(
            Case {
                p,
                n,
                allowance,
                count,
            },
        ) => {
            print!(rt; " case {p} {n} {allowance} {count}")?;
            show(rt, &matrix, n * n, &print_bytes)?;
            show(rt, &candidates, count * n, &print_bytes)?;
        }
        Err(place) => {
            refuse(rt, place)?;
            show(rt, &matrix, 0, &print_bytes)?;
            show(rt, &candidates, 0, &print_bytes)?;
        }
    }
    Ok(())
}

// The first k bytes, as the closure prints them; then the weight of all bytes, so that one behind them would be seen.
fn show<F: Fn(&[u8]) -> io::Result<()>>(
    rt: &impl Print,
    s: &[u8],
    k: usize,
    print_bytes: F,
) -> io::Result<()>
    requires in_bounds { k ≤ length s.now }
    requires callable { F.IsAlwaysCallable print_bytes }
{
    print!(rt; " |")?;
    print_bytes(&s[..k])?;
    print!(rt; " : {}", weight(s))
}

// The sum of the bytes, each times its place counted from 1, modulo 2^32. A byte lies in as many tails as its place counts.
fn weight(s: &[u8]) -> u32 {
    let mut tail = 0u32;
    let mut sum = 0u32;
    for x in s.iter().rev() {
        tail = tail.wrapping_add(u32::from(*x));
        sum = sum.wrapping_add(tail);
    }
    sum
}
