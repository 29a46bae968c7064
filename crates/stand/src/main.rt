// Reads one case file on standard input and writes its sheet. What the sheet says is the library's business; this program reads, calls and writes.
// What fails is said on standard error, and then nothing or not all is written; the exit status is 0 even so, and `./sheet` gives the one that tells.
#![tactic(auto)]

use meaning::LONGEST_CASE;
use std::io;

// The buffer has room for every sheet, so the call is not refused.
fn show(rt: &impl Print, file: &[u8]) -> io::Result<()> {
    let mut out = [0u8; sheet::ROOM];
    match sheet::sheet(file, &mut out) {
        Ok(k) => rt.write_all(&out[..k]),
        Err(_) => Ok(()),
    }
}

// One byte more is read, so that a byte behind the longest case is seen; whatever follows changes nothing (`file_front` of the crate `sheet`).
fn main(rt: HostRuntime) -> io::Result<()> {
    let mut file = [0u8; LONGEST_CASE + 1];
    match input::read_all(&mut rt.reader(), &mut file) {
        Ok(k) => show(&rt, &file[..k]).or_else(|error| input::fail(
            &rt,
            "stand: standard output",
            error,
        )),
        Err(failure) => input::fail(&rt, "stand: standard input", failure.error),
    }
}
