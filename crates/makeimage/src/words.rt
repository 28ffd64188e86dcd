// The words that the program is called with.
ghost use Rattle.std.specs.Prelude.{◌≤◌, IfOk, length};

use std::env::{Env, FillError};
use std::io;

// Room for a word: the system takes no longer name of a file.
pub const NAME: usize = 4096;

// The system's number for a name that is longer.
const NAME_TOO_LONG: i32 = 36;

// A word, by its place behind the program's name.
#[derive(Clone, Copy)]
pub enum Word {
    Body = 1,
    Image,
    Version,
    Seal,
    Key,
}

// How many words there are, the program's own name among them; of more than it takes, one more than that.
pub fn count(rt: &impl Env) -> usize {
    (0..7)
        .position(|i| matches!(rt.arg(i, &mut []), Err(FillError::NotPresent)))
        .unwrap_or(7)
}

// A word's bytes; of one that is not there, none.
pub fn read<'a>(rt: &impl Env, word: Word, room: &'a mut [u8; NAME]) -> io::Result<&'a [u8]>
    ensures { IfOk result (λ bytes. length bytes.now ≤ length room.old) }
{
    match rt.arg(word as usize, room) {
        Ok(n) => Ok(&room[..n]),
        Err(FillError::TooLong) => Err(io::Error::from_raw_os_error(NAME_TOO_LONG)),
        Err(FillError::NotPresent) => Ok(&[]),
    }
}

// The same; of a word that is too long, no byte.
pub fn read_or_empty<'a>(rt: &impl Env, word: Word, room: &'a mut [u8; NAME]) -> &'a [u8]
    ensures { length result.now ≤ length room.old }
{
    read(rt, word, room).unwrap_or(&[])
}

// A word as it is given; a control character becomes `?`, so that a line stays one line. (No `Display`: a word need not be text.)
pub fn print(rt: &impl Env, to: &impl Print, word: Word) {
    let mut room = [0; NAME];
    let n = read_or_empty(rt, word, &mut room).len();
    for byte in &mut room[..n] {
        if byte.is_ascii_control() {
            *byte = b'?';
        }
    }
    let _ = to.write_all(&room[..n]);
}
