// What a program reads: a file by the name that it was given, as far as there is room for it, and its input line by line.
#![tactic(auto)]

pub mod lines;

ghost use Rattle.std.specs.Prelude.{◌≤◌, IfOk, IfSome, length};

use std::io::Read;
use std::rt::Files;
use std::{fs, io, str};

// The system's number for a name that is no text.
const NO_TEXT: i32 = 84;

// The path that a name is: text, as the library takes no other.
pub fn path(name: &[u8]) -> io::Result<&str> {
    str::from_utf8(name).map_err(|_| io::Error::from_raw_os_error(NO_TEXT))
}

// Opens the file with this name.
pub fn open<R: Files>(rt: &R, name: &[u8]) -> io::Result<R::File> {
    fs::open(rt, path(name)?)
}

// Reads on until there is no more room, or no more to read; how many bytes. The count of turns is there because every loop must end.
fn fill(file: &mut impl Read, room: &mut [u8]) -> io::Result<usize>
    ensures { IfOk result (λ n. n ≤ length room.new) }
{
    let mut n = 0;
    for _ in 0..u64::MAX {
        let got = file.read(&mut room[n..])?;
        if got == 0 {
            break;
        }
        n += got;
    }
    Ok(n)
}

// The bytes of a file; `None` where it has more than there is room for, which one read more tells.
pub fn read<'a>(file: &mut impl Read, room: &'a mut [u8]) -> io::Result<Option<&'a [u8]>>
    ensures { IfOk result (λ bytes. IfSome bytes (λ b. length b.now ≤ length room.old)) }
{
    let n = fill(file, room)?;
    if n == room.len() && 0 < file.read(&mut [0])? {
        return Ok(None);
    }
    Ok(Some(&room[..n]))
}
