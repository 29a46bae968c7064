// Reads a design's text on standard input, as spreadsheets save it, and writes its case file. What is wrong in the text is said in one line on standard
// error, and then nothing is written. What the text says, and what is said of it, is the library's business; this program reads, calls and writes.
#![tactic(auto)]

use meaning::LONGEST_CASE;
use std::io;

// The longest text that is read: some five times the longest that a spreadsheet saves of a design.
const MOST_TEXT: usize = 262144;

// The buffer has room for every case, so the writer refuses nothing.
fn make(to: &impl Print, errors: &(impl Print + Eprint), text: &[u8]) -> io::Result<()> {
    let mut out = [0u8; LONGEST_CASE];
    match design::make(text, &mut out) {
        Ok(Ok(k)) => to.write_all(&out[..k]).or_else(|error| input::fail(
            errors,
            "make_case: standard output",
            error,
        )),
        Ok(Err(_)) => Ok(()),
        Err(mistake) => {
            errors.write_all(mistake::message(mistake).as_bytes())?;
            errors.write_all(b"\n")
        }
    }
}

// One byte more than the longest text is read, so that a longer one is seen.
fn main(rt: HostRuntime) -> io::Result<()> {
    let mut text = [0u8; MOST_TEXT + 1];
    match input::read_all(&mut rt.reader(), &mut text) {
        Ok(k) if MOST_TEXT < k => eprintln!(rt; "the text has more than {MOST_TEXT} bytes"),
        Ok(k) => make(&rt.stdout(), &rt.stderr(), &text[..k]),
        Err(failure) => input::fail(&rt, "make_case: standard input", failure.error),
    }
}
