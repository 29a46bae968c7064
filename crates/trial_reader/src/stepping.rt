// Every step of the reader, from the front on: file.
ghost use Rattle.std.specs.Prelude.{IfOk};
ghost use Rattle.reader.specs.Step.{StepIs};

use crate::{FILE_LENT, refuse};
use reader::{Cursor, Step, Stepped};
use std::io;
use trial_lines::{Line, Unanswered};

pub fn answer(rt: &impl Print, line: Line) -> Result<(), Unanswered> {
    let mut file = [0u8; FILE_LENT];
    let file = line.fill(0, &mut file)?;
    walk(rt, file)?;
    Ok(())
}

// The last step, which hands out no record, is made twice: it must say the same again. No index is counted: a step says itself that it is the last.
fn walk(rt: &impl Print, s: &[u8]) -> io::Result<()> {
    let mut at = reader::front();
    loop {
        let stepped = step(rt, s, at)?;
        at = stepped.next;
        let Ok(said) = stepped.step else { break };
        if let Step::Over = said {
            break;
        }
    }
    step(rt, s, at)?;
    Ok(())
}

// Makes a step and prints it.
fn step(rt: &impl Print, s: &[u8], at: Cursor) -> io::Result<Stepped>
    ensures { IfOk result (λ r. StepIs s.now at.at r) }
{
    let stepped = reader::step_from(s, at);
    print!(rt; " |")?;
    match stepped.step {
        Ok(Step::Field { p, n }) => print!(rt; " field {p} {n}")?,
        Ok(Step::Allow { high, low }) => print!(rt; " allow {high} {low}")?,
        Ok(Step::Row) => {
            print!(rt; " row")?;
            trial_lines::print_list(rt, reader::entries(s, stepped))?;
        }
        Ok(Step::Candidate) => {
            print!(rt; " candidate")?;
            trial_lines::print_list(rt, reader::entries(s, stepped))?;
        }
        Ok(Step::End) => print!(rt; " end")?,
        Ok(Step::Over) => print!(rt; " over")?,
        Err(place) => refuse(rt, place)?,
    }
    Ok(stepped)
}
