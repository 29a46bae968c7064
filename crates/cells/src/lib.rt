// A design's text (02, #101), read where it lies: its separator, its pieces, and the word or the number that a cell says.
#![tactic(auto)]

ghost use Rattle.std.specs.Prelude.{◌≡◌, ◌≤◌, IfSome};
ghost use Rattle.meaning.specs.Bounds.{most_allowance};
ghost use Rattle.meaning.specs.Design.{is_separator, separator_in, without_mark, without_return, number_in};
ghost use Rattle.cells.specs.Cells.{used_part, letter_in, small};

use meaning::MOST_ALLOWANCE;

// A number from here on is no entry, no size and no allowance, so it says no more than a wrong cell.
const TOO_LARGE: u32 = MOST_ALLOWANCE + 1;

fn is_separator(b: u8) -> bool
    ensures { result ≡ is_separator b }
{
    matches!(b, b',' | b';' | b'\t')
}

// The first separator of the text; a comma where it has none.
pub fn separator(text: &[u8]) -> u8
    ensures { result ≡ separator_in text.now }
{
    for b in text {
        if is_separator(*b) {
            return *b;
        }
    }
    b','
}

// The text behind the byte-order mark that it may begin with.
pub fn without_mark(text: &[u8]) -> &[u8]
    ensures { result.now ≡ without_mark text.now }
{
    text.strip_prefix(b"\xEF\xBB\xBF").unwrap_or(text)
}

// The line without the carriage return at its end.
fn without_return(line: &[u8]) -> &[u8]
    ensures { result.now ≡ without_return line.now }
{
    line.strip_suffix(b"\r").unwrap_or(line)
}

// The line without the carriage return and then the separators at its end.
pub fn used_part(line: &[u8], s: u8) -> &[u8]
    ensures { result.now ≡ used_part s line.now }
{
    let mut used = without_return(line);
    while let Some((last, rest)) = used.split_last() {
        if *last != s {
            break;
        }
        used = rest;
    }
    used
}

// The letter of the record that begins with the word in the cell.
pub fn letter(cell: &[u8]) -> Option<u8>
    ensures { result ≡ letter_in cell.now }
{
    // no `match`: its last arm would be a goal for each byte at which a word can fail
    if cell == b"field".as_slice() {
        return Some(b'F');
    }
    if cell == b"allowance".as_slice() {
        return Some(b'A');
    }
    if cell == b"row".as_slice() {
        return Some(b'R');
    }
    if cell == b"candidate".as_slice() {
        return Some(b'C');
    }
    None
}

// The number that the cell says, unless it is larger than every allowance.
pub fn number(cell: &[u8]) -> Option<u32>
    ensures value { result ≡ small (number_in cell.now) }
    ensures within { IfSome result (λ v. v ≤ most_allowance) }
{
    if cell.is_empty() {
        return None;
    }
    let mut value = 0;
    for b in cell {
        if !b.is_ascii_digit() {
            return None;
        }
        value = 10 * value + u32::from(*b - b'0');
        if TOO_LARGE <= value {
            return None;
        }
    }
    Some(value)
}
