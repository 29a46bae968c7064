// Makes the call that each line of standard input names and prints the line's word, the answer, and every lent buffer whole, as it is after the
// call. Comment lines, which begin with `#`, and empty ones are printed as they are. At most 131,072 bytes are read.
#![tactic(auto)]

mod chain;
mod image;
mod inverse;
mod order;
mod periods;
mod stand;
mod write;

use reasons::{Numbers, Reason};
use std::io;
use trial_lines::{Line, Unanswered};

// Room for what is lent as a matrix, a list and a polynomial: somewhat more than the longest that a call takes.
const MATRIX_LENT: usize = 4608;

const LIST_LENT: usize = 8448;

const ROW_LENT: usize = 400;

// The number that follows the line's word.
fn modulus(line: Line) -> u32 {
    line.number(0)
}

// The number of the second group.
fn size(line: Line) -> usize {
    line.number(1) as usize
}

// A refusal's number, and where it has one the row and the column of the bad entry.
fn refuse(rt: &impl Print, reason: Reason) -> io::Result<()> {
    let numbers = Numbers::from(reason);
    print!(rt; " refused {}", numbers.number)?;
    if numbers.column != 0 {
        print!(rt; " row {} column {}", numbers.row, numbers.column)?;
    }
    Ok(())
}

// A lent buffer, whole.
fn show(rt: &impl Print, buffer: &[u8]) -> io::Result<()> {
    print!(rt; " |")?;
    trial_lines::print_list(rt, buffer)
}

fn answer(rt: &impl Print, line: Line) -> Result<(), Unanswered> {
    match line.word() {
        b"inverse" => inverse::answer(rt, line)?,
        b"order" => order::answer(rt, line)?,
        b"image" => image::answer(rt, line)?,
        b"stand" => stand::answer(rt, line)?,
        b"chain" => chain::answer(rt, line)?,
        b"period" => periods::answer(rt, line)?,
        b"write" => write::answer(rt, line)?,
        _ => print!(rt; " unknown")?,
    }
    Ok(())
}

fn main(rt: HostRuntime) -> io::Result<()> {
    trial_lines::answer_lines(&rt, &mut [0u8; 131072], |line| answer(&rt, line))
}
