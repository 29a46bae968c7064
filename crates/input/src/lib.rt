// What the programs share: a reader is read to its end, and a read that fails is told from an input that is over. At a reader whose bytes are known, as
// one over memory, the contract says which are read; which bytes the system gives no contract can say.
#![tactic(auto)]

ghost use Rattle.std.specs.Prelude.{◌≡◌, ◌<◌, ◌≤◌, length, take, MatchResult, IfOk};
ghost use Rattle.std.specs.Io.KnownBytes.{Consumes, IsAtEnd};

use std::io;
use std::io::Read;

// Why a read failed, and how many bytes lie at the front of the buffer nevertheless.
#[derive(Drop)]
pub struct ReadFailure {
    pub error: io::Error,
    pub count: usize,
}

impl From<ReadFailure> for io::Error {
    ghost from_gives = { λ failure error. error ≡ failure.error };

    fn from(failure: ReadFailure) -> io::Error {
        failure.error
    }
}

// Reads until the buffer is full, the input is over or a read fails. Answers how many bytes lie at the front of the buffer.
pub fn read_all<R: Read>(from: &mut R, buf: &mut [u8]) -> Result<usize, ReadFailure>
    ensures in_bounds { MatchResult result (λ n. n ≤ length buf.new) (λ e. e.count ≤ length buf.new) }
    ensures bytes { MatchResult result (λ n. Consumes (R.remaining from.old) (R.remaining from.new) (take n buf.new))
        (λ e. Consumes (R.remaining from.old) (R.remaining from.new) (take e.count buf.new)) }
    ensures over { IfOk result (λ n. n < length buf.new → IsAtEnd (R.remaining from.new)) }
{
    let mut count = 0;
    while count < buf.len() {
        match from.read(&mut buf[count..]) {
            Ok(0) => break,
            Ok(more) => count += more,
            Err(error) => return Err(ReadFailure { error, count }),
        }
    }
    Ok(count)
}

// Writes a line to standard error: what failed, a colon and why.
pub fn fail(rt: &impl Eprint, what: &str, error: io::Error) -> io::Result<()> {
    eprintln!(rt; "{what}: {error}")
}
