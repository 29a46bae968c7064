// What a benchmark times: one call of the library on one machine, made a number of times over. What the last of them gives is printed.
// Standard input has a letter, p, n, the number of calls (two bytes, the low one first) and the number of rows of a list, then the n·n entries of the
// machine and those of the list, row after row. The letter says which call is made: `s` the stand with the list, `o` the order of the list's one row,
// `c` the chain with the list, `t` the period. Of a polynomial all places of the buffer are printed. Without calls the program only reads.
#![tactic(auto)]

ghost use Rattle.std.specs.Prelude.{◌≤◌, length, IfOk};

use calls::Stood;
use meaning::{CANDIDATE_ROOM, COEFFICIENTS, MATRIX_ROOM, STAGE_RECORD};
use reasons::{Numbers, Reason};
use std::io;
use std::io::Read;

// It pays for every list.
const ALLOWANCE: u32 = CANDIDATE_ROOM as u32;

// A machine of width n over Z/p with a list of rows, and how many calls are made on them.
#[derive(Clone, Copy)]
struct Work<'a> {
    times: u16,
    p: u32,
    n: usize,
    m: &'a [u8],
    cs: &'a [u8],
}

// Makes the calls; what the last of them gives.
fn repeat<T: Drop, F: FnMut() -> T>(times: u16, mut call: F) -> Option<T>
    requires { F.IsAlwaysCallable call }
{
    let mut last = None;
    for _ in 0..times {
        last = Some(call());
    }
    last
}

fn refuse(rt: &impl Print, reason: Reason) -> io::Result<()> {
    print!(rt; "REFUSED {}", Numbers::from(reason).number)
}

// The buffer of a polynomial, whole, as the line's end.
fn end_line(rt: &impl Print, poly: &[u8]) -> io::Result<()> {
    trial_lines::print_list(rt, poly)?;
    println!(rt; "")
}

// Behind the mark stand the witness, or 0, and the degree.
fn stand(rt: &impl Print, work: Work) -> io::Result<()> {
    let mut poly = [0u8; COEFFICIENTS];
    let mut image = [0u8; STAGE_RECORD];
    let stood = repeat(work.times, || {
        calls::stand(
            work.p, work.n, work.m, work.cs, ALLOWANCE, &mut poly, &mut image,
        )
    });
    match stood {
        None => return Ok(()),
        Some(Ok(Stood::Proved(counts))) => print!(rt; "STAND PROVED 0 {}", counts.degree)?,
        Some(Ok(Stood::Short(counts, witness))) => print!(rt;
            "STAND SHORT {witness} {}",
            counts.degree
        )?,
        Some(Err(reason)) => refuse(rt, reason)?,
    }
    end_line(rt, &poly)
}

fn order(rt: &impl Print, work: Work) -> io::Result<()> {
    let mut poly = [0u8; COEFFICIENTS];
    let ordered = repeat(work.times, || {
        calls::order(work.p, work.n, work.m, work.cs, &mut poly)
    });
    match ordered {
        None => return Ok(()),
        Some(Ok(degree)) => print!(rt; "ORDER {degree}")?,
        Some(Err(reason)) => refuse(rt, reason)?,
    }
    end_line(rt, &poly)
}

fn chain(rt: &impl Print, work: Work) -> io::Result<()> {
    let mut poly = [0u8; COEFFICIENTS];
    let mut stages = [0u8; STAGE_RECORD];
    let chained = repeat(work.times, || {
        calls::chain(work.p, work.n, work.m, work.cs, &mut poly, &mut stages)
    });
    match chained {
        None => return Ok(()),
        Some(Ok(count)) => print!(rt; "CHAIN {count}")?,
        Some(Err(reason)) => refuse(rt, reason)?,
    }
    end_line(rt, &poly)
}

fn period(rt: &impl Print, work: Work) -> io::Result<()> {
    match repeat(work.times, || calls::period(work.p, work.n, work.m)) {
        None => return Ok(()),
        Some(Ok(Some(t))) => print!(rt; "PERIOD {t}")?,
        Some(Ok(None)) => print!(rt; "PERIOD none")?,
        Some(Err(reason)) => refuse(rt, reason)?,
    }
    end_line(rt, &[])
}

// The next bytes of the input, so many where there is room for them and else none, at the front of the buffer.
fn take(from: &mut impl Read, count: usize, buf: &mut [u8]) -> io::Result<usize>
    ensures { IfOk result (λ n. n ≤ length buf.new) }
{
    if buf.len() < count {
        return Ok(0);
    }
    Ok(input::read_all(from, &mut buf[..count])?)
}

fn main(rt: HostRuntime) -> io::Result<()> {
    let mut from = rt.reader();
    let mut head = [0u8; 6];
    take(&mut from, 6, &mut head)?;
    let [letter, p, n, low, high, rows] = head;
    let n = usize::from(n);
    let mut m = [0u8; MATRIX_ROOM];
    let entries = take(&mut from, n * n, &mut m)?;
    let mut cs = [0u8; CANDIDATE_ROOM];
    let listed = take(&mut from, usize::from(rows) * n, &mut cs)?;
    let work = Work {
        times: u16::from_le_bytes([low, high]),
        p: u32::from(p),
        n,
        m: &m[..entries],
        cs: &cs[..listed],
    };
    match letter {
        b's' => stand(&rt, work),
        b'o' => order(&rt, work),
        b'c' => chain(&rt, work),
        b't' => period(&rt, work),
        _ => Ok(()),
    }
}
