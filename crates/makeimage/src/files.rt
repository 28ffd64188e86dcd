// A file read whole, and a new file written whole or not at all.
ghost use Rattle.std.specs.Prelude.{◌≤◌, IfOk, IfSome, length};

use crate::words;
use crate::words::{NAME, Word};
use std::env::Env;
use std::fs::{OpenFile, OpenOptions};
use std::io::Write;
use std::rt::Files;
use std::{fs, io};

// The bytes of the file that a word names; `None` where it has more than there is room for.
pub fn read<'a>(
    rt: &(impl Env + Files),
    word: Word,
    room: &'a mut [u8],
) -> io::Result<Option<&'a [u8]>>
    ensures { IfOk result (λ bytes. IfSome bytes (λ b. length b.now ≤ length room.old)) }
{
    let mut name = [0; NAME];
    let mut file = loading::open(rt, words::read(rt, word, &mut name)?)?;
    loading::read(&mut file, room)
}

// Writes two parts, and sees to it that they stand: a file that is only closed tells no failure.
fn write_parts(
    mut file: impl Write + OpenFile + Drop,
    first: &[u8],
    second: &[u8],
) -> io::Result<()> {
    file.write_all(first)?;
    file.write_all(second)?;
    file.sync_all()
}

// Makes the file that a word names, of two parts. Where that fails, no file is left.
pub fn write(rt: &(impl Env + Files), word: Word, first: &[u8], second: &[u8]) -> io::Result<()> {
    let mut name = [0; NAME];
    let path = loading::path(words::read(rt, word, &mut name)?)?;
    let file = OpenOptions::new()
        .write(true)
        .create_new(true)
        .open(rt, path)?;
    let written = write_parts(file, first, second);
    if written.is_err() {
        let _ = fs::remove_file(rt, path);
    }
    written
}
