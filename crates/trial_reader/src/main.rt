// Asks of the case reader what each line of standard input names and prints the line's word and the answer. Comment lines, which begin with `#`,
// and empty ones are printed as they are. At most 65,536 bytes are read.
#![tactic(auto)]

mod reading;
mod stepping;

use std::io;
use trial_lines::{Line, Unanswered};

// Room for a file that is somewhat longer than the longest case.
const FILE_LENT: usize = 12800;

// Number 8 with the place.
fn refuse(rt: &impl Print, place: usize) -> io::Result<()> {
    print!(rt; " refused 8 {place}")
}

fn answer(rt: &impl Print, line: Line) -> Result<(), Unanswered> {
    match line.word() {
        b"read" => reading::answer(rt, line, |s| trial_lines::print_list(rt, s)),
        b"weigh" => reading::answer(rt, line, |s| print!(rt; " {}", s.len())),
        b"steps" => stepping::answer(rt, line),
        _ => Ok(print!(rt; " unknown")?),
    }
}

fn main(rt: HostRuntime) -> io::Result<()> {
    trial_lines::answer_lines(&rt, &mut [0u8; 65536], |line| answer(&rt, line))
}
