// Test lines: a word, then decimal numbers in groups. The groups are separated by `|`, the first one follows the word, and `k*x` stands for k
// numbers x. A number is a run of digits and is read modulo 2^32; whatever else stands between two numbers is passed over. The contracts say
// what an index needs; what a line means is shown by running the programs over it.
#![tactic(auto)]

ghost use Rattle.std.specs.Prelude.{◌<◌, ◌≤◌, length, IfOk, IfSome};

use std::io;

// A number, and how often it stands there.
#[derive(Clone, Copy)]
struct Run {
    count: u32,
    value: u32,
}

// The number times 10 plus a digit, modulo 2^32. The digit 0 is the byte 48.
fn append(value: u32, x: u8) -> u32 {
    value.wrapping_mul(10).wrapping_add(u32::from(x % 48))
}

// The number at the front of the bytes, which goes on as long as digits follow, and what stands behind it.
fn numeral(s: &[u8]) -> (u32, &[u8])
    requires { 0 < length s.now }
    ensures { length result.1.now < length s.now }
{
    let end = match s[1..].iter().position(|x| !x.is_ascii_digit()) {
        Some(more) => 1 + more,
        None => s.len(),
    };
    let (digits, behind) = s.split_at(end);
    (digits.iter().fold(0, |value, x| append(value, *x)), behind)
}

// The first number or repeated number, and what stands behind it.
fn next_run(s: &[u8]) -> Option<(Run, &[u8])>
    ensures { IfSome result (λ r. length r.1.now < length s.now) }
{
    let start = s.iter().position(|x| x.is_ascii_digit())?;
    let (first, behind) = numeral(&s[start..]);
    if let [b'*', _, ..] = behind {
        let (value, rest) = numeral(&behind[1..]);
        return Some((
            Run {
                count: first,
                value,
            },
            rest,
        ));
    }
    let once = Run {
        count: 1,
        value: first,
    };
    Some((once, behind))
}

// A group has more numbers than there is room for.
#[derive(Clone, Copy)]
pub struct TooLong;

// Why a line has no answer.
#[derive(Drop)]
pub enum Unanswered {
    TooLong,
    Output(io::Error),
}

impl From<TooLong> for Unanswered {
    fn from(_: TooLong) -> Unanswered {
        Unanswered::TooLong
    }
}

impl From<io::Error> for Unanswered {
    fn from(error: io::Error) -> Unanswered {
        Unanswered::Output(error)
    }
}

// A line of the input, without its end.
#[derive(Clone, Copy)]
pub struct Line<'a> {
    bytes: &'a [u8],
}

impl<'a> Line<'a> {
    // The line's word.
    pub fn word(self) -> &'a [u8] {
        self.bytes
            .split(|x| *x == b' ')
            .next()
            .unwrap_or(self.bytes)
    }

    // What follows the word and the space behind it.
    pub fn behind_word(self) -> &'a [u8] {
        self.bytes.splitn(2, |x| *x == b' ').nth(1).unwrap_or(&[])
    }

    // The group with this number, counted from 0; empty where the line has none. The first one begins with the word.
    pub fn group(self, number: usize) -> &'a [u8] {
        self.bytes.split(|x| *x == b'|').nth(number).unwrap_or(&[])
    }

    // The first number of a group, or 0 where it has none: of an `Option` every caller would ask for just that.
    pub fn number(self, group: usize) -> u32 {
        match next_run(self.group(group)) {
            Some((run, _)) => run.value,
            None => 0,
        }
    }

    // The first number of a group, modulo 256.
    pub fn byte(self, group: usize) -> u8 {
        (self.number(group) % 256) as u8
    }

    // Writes the numbers of a group, modulo 256, at the front of the room and hands them out.
    pub fn fill<'b>(self, group: usize, room: &'b mut [u8]) -> Result<&'b mut [u8], TooLong>
        ensures { IfOk result (λ f. length f.now ≤ length room.old) }
    {
        let mut count = 0;
        let mut rest = self.group(group);
        while let Some((run, behind)) = next_run(rest) {
            if room.len() - count < run.count as usize {
                return Err(TooLong);
            }
            let end = count + run.count as usize;
            room[count..end].fill((run.value % 256) as u8);
            count = end;
            rest = behind;
        }
        Ok(&mut room[..count])
    }
}

// The numbers, each after a space.
pub fn print_list(rt: &impl Print, s: &[u8]) -> io::Result<()> {
    for x in s {
        print!(rt; " {x}")?;
    }
    Ok(())
}

// Reads the lines of standard input, as many bytes as there is room for, and prints a line for each: comment lines, which begin with `#`, and empty ones as
// they are, and of any other its word and then what the closure prints.
pub fn answer_lines<F: FnMut(Line) -> Result<(), Unanswered>>(
    rt: &(impl Input + Print),
    room: &mut [u8],
    mut answer: F,
) -> io::Result<()>
    requires { F.IsAlwaysCallable answer }
{
    let count = input::read_all(&mut rt.reader(), room)?;
    for ended in room[..count].split_inclusive(|x| *x == b'\n') {
        let bytes = ended.strip_suffix(b"\n").unwrap_or(ended);
        match bytes {
            [] => {}
            [b'#', ..] => rt.write_all(bytes)?,
            _ => {
                let line = Line { bytes };
                rt.write_all(line.word())?;
                match answer(line) {
                    Ok(()) => {}
                    Err(Unanswered::TooLong) => print!(rt; " too long")?,
                    Err(Unanswered::Output(error)) => return Err(error),
                }
            }
        }
        println!(rt; "")?;
    }
    Ok(())
}
