// Takes samples through `sheet` and holds what it prints to their stored sheets. The arguments name the files in pairs, a case or a design's text and its
// sheet, in the folder where the program runs. For each pair a line is printed: the sample's name, and whether its sheet is the stored one.
#![tactic(auto)]

ghost use Rattle.std.specs.Prelude.{◌+◌, ◌<◌, ◌≤◌, ◌^◌, length, IfOk, IfSome};

use meaning::LONGEST_CASE;
use std::env::{Env, FillError};
use std::rt::Files;
use std::{fs, io, str};

// The bytes of a name that are read.
const NAME: usize = 64;

// The name that argument i is, at the front of the buffer; empty where it has no room there or is no text.
fn name<'a>(rt: &impl Env, i: usize, buf: &'a mut [u8]) -> &'a str {
    match rt.arg(i, buf) {
        Ok(k) => str::from_utf8(&buf[..k]).unwrap_or(""),
        Err(_) => "",
    }
}

// Whether there is an argument i.
fn is_given(rt: &impl Env, i: usize) -> bool {
    !matches!(rt.arg(i, &mut []), Err(FillError::NotPresent))
}

// The file of this name, at the front of the buffer: how many bytes it has.
fn read(rt: &impl Files, name: &str, buf: &mut [u8]) -> io::Result<usize>
    ensures { IfOk result (λ k. k ≤ length buf.new) }
{
    let mut file = fs::open(rt, name)?;
    Ok(input::read_all(&mut file, buf)?)
}

// The same; why it cannot be read is said on standard error.
fn load(rt: &(impl Files + Eprint), name: &str, buf: &mut [u8]) -> io::Result<Option<usize>>
    ensures { IfOk result (λ r. IfSome r (λ k. k ≤ length buf.new)) }
{
    match read(rt, name, buf) {
        Ok(k) => Ok(Some(k)),
        Err(error) => {
            input::fail(rt, name, error)?;
            Ok(None)
        }
    }
}

// Whether the sheet of the file is the stored one.
fn judge(rt: &impl Print, file: &[u8], stored: &[u8]) -> io::Result<()> {
    let mut out = [0u8; sheet::ROOM];
    match sheet::sheet(file, &mut out) {
        Ok(k) => {
            if &out[..k] == stored {
                println!(rt; " same")
            } else {
                println!(rt; " differs")
            }
        }
        Err(_) => println!(rt; " refused"),
    }
}

// The same of the case that a design's text says.
fn judge_text(rt: &impl Print, text: &[u8], stored: &[u8]) -> io::Result<()> {
    let mut case = [0u8; LONGEST_CASE];
    match design::make(text, &mut case) {
        Ok(Ok(k)) => judge(rt, &case[..k], stored),
        Ok(Err(_)) => println!(rt; " refused"),
        Err(_) => println!(rt; " wrong"),
    }
}

// Whether a name is that of a design's text.
fn is_text(name: &str) -> bool {
    name.ends_with(".csv")
}

// The sample that argument i names against the sheet that the next one names. The buffers are longer than any sample and any sheet, so that bytes behind
// one are seen.
fn try_pair(rt: &(impl Env + Files + Print + Eprint), i: usize) -> io::Result<()>
    requires { i + 1 < 2 ^ 64 }
{
    let mut file = [0u8; 65536];
    let mut sheet = [0u8; 4096];
    let mut room = [0u8; NAME];
    let mut sheet_room = [0u8; NAME];
    let sample = name(rt, i, &mut room);
    print!(rt; "{sample}")?;
    let loaded = load(rt, sample, &mut file)?;
    let stored = load(rt, name(rt, i + 1, &mut sheet_room), &mut sheet)?;
    match (loaded, stored) {
        (Some(k), Some(d)) => {
            if is_text(sample) {
                judge_text(rt, &file[..k], &sheet[..d])
            } else {
                judge(rt, &file[..k], &sheet[..d])
            }
        }
        _ => println!(rt; " unread"),
    }
}

fn main(rt: HostRuntime) -> io::Result<()> {
    for i in 0..usize::MAX / 2 {
        if !is_given(&rt, 2 * i + 2) {
            break;
        }
        try_pair(&rt, 2 * i + 1)?;
    }
    Ok(())
}
