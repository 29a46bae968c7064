// A text in one line: \n, \r, \t and \\ stand for these bytes, a backslash with three digits for the byte of that number, and all else for itself.
ghost use Rattle.std.specs.Prelude.{◌<◌, ◌≤◌, length, IfSome};

// What a byte behind a backslash stands for.
fn named(x: u8) -> u8 {
    match x {
        b'n' => b'\n',
        b'r' => b'\r',
        b't' => b'\t',
        _ => x,
    }
}

// The value of a digit, modulo 10.
fn digit(x: u8) -> u32
    ensures { result < 10 }
{
    (u32::from(x) + 2) % 10
}

// The first byte of the text, and what stands behind it in the line.
fn next_byte(s: &[u8]) -> Option<(u8, &[u8])>
    ensures { IfSome result (λ r. length r.1.now < length s.now) }
{
    match s {
        [] => None,
        [b'\\', a @ ..=b'9', b, c, rest @ ..] => {
            let value = 100 * digit(*a) + 10 * digit(*b) + digit(*c);
            Some(((value % 256) as u8, rest))
        }
        [b'\\', x, rest @ ..] => Some((named(*x), rest)),
        [x, rest @ ..] => Some((*x, rest)),
    }
}

// The bytes of the text at the front of the room, as far as there is room.
pub fn decode<'a>(line: &[u8], room: &'a mut [u8]) -> &'a [u8]
    ensures { length result.now ≤ length room.old }
{
    let mut count = 0;
    let mut rest = line;
    while let Some((byte, behind)) = next_byte(rest) {
        if count < room.len() {
            room[count] = byte;
            count += 1;
        }
        rest = behind;
    }
    &room[..count]
}
