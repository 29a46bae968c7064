// Makes the case of the text that each line of standard input has and prints the line's word, then the case's length and bytes, or the first thing that
// is wrong and what was expected there. Comment lines, which begin with `#`, and empty ones are printed as they are. At most 65,536 bytes are read.
#![tactic(auto)]

mod escaped;

use meaning::LONGEST_CASE;
use std::io;
use trial_lines::Line;

// Room for the longest text of a line.
const LONGEST_TEXT: usize = 16384;

// The buffer has room for every case, so the writer refuses nothing.
fn answer(rt: &impl Print, line: Line) -> io::Result<()> {
    let mut text = [0u8; LONGEST_TEXT];
    let text = escaped::decode(line.behind_word(), &mut text);
    let mut out = [0u8; LONGEST_CASE];
    match design::make(text, &mut out) {
        Ok(Ok(length)) => {
            print!(rt; " case {length} |")?;
            trial_lines::print_list(rt, &out[..length])
        }
        Ok(Err(_)) => print!(rt; " refused"),
        Err(mistake) => {
            print!(rt; " ")?;
            rt.write_all(mistake::message(mistake).as_bytes())
        }
    }
}

fn main(rt: HostRuntime) -> io::Result<()> {
    trial_lines::answer_lines(&rt, &mut [0u8; 65536], |line| Ok(answer(&rt, line)?))
}
