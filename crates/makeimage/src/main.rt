// makeimage BODY IMAGE VERSION sealed|unsealed [KEY]: makes a bench image of a body. One line on standard output says what was made, or one
// on standard error why nothing was.
#![tactic(auto)]

mod files;
mod report;
mod words;
mod wrong;

use image::Header;
use maker::{Unmade, Wanted, version};
use report::Report;
use std::env::Env;
use std::rt::Files;
use words::{NAME, Word};
use wrong::Wrong;

// How long a tag key is.
const KEY: usize = 64;

// VERSION.
fn version_asked(rt: &impl Env) -> Result<u32, Wrong> {
    let mut room = [0; NAME];
    version::read(words::read_or_empty(rt, Word::Version, &mut room)).ok_or(Wrong::Version)
}

// Whether the image is to be sealed.
fn seal_asked(rt: &impl Env) -> Result<bool, Wrong> {
    let mut room = [0; NAME];
    match words::read_or_empty(rt, Word::Seal, &mut room) {
        b"sealed" => Ok(true),
        b"unsealed" => Ok(false),
        _ => Err(Wrong::Seal),
    }
}

// The tag key in the file KEY.
fn key_asked(rt: &(impl Env + Files)) -> Result<[u8; KEY], Wrong> {
    let mut key = [0; KEY];
    let read = files::read(rt, Word::Key, &mut key).map_err(Wrong::KeyUnread)?;
    match read.map(|bytes| bytes.len()) {
        Some(KEY) => Ok(key),
        length => Err(Wrong::KeyLength(length)),
    }
}

// Room for the longest body.
// Kept: `play` and `cases` have a function like this; a public one with a contract for one literal is no plainer.
fn room() -> [u8; maker::LONGEST] {
    [0; maker::LONGEST]
}

// Makes the file IMAGE of the file BODY. (In line, the room for a body would stand on the stack also where a word is refused.)
#[inline(never)]
fn make(rt: &(impl Env + Files), wanted: Wanted) -> Result<Header, Wrong> {
    let mut room = room();
    let body = files::read(rt, Word::Body, &mut room)
        .map_err(Wrong::BodyUnread)?
        .ok_or(Wrong::BodyLong)?;
    let made = maker::make(body, wanted).map_err(|unmade| match unmade {
        Unmade::NotWords => Wrong::NotWords(body.len()),
        Unmade::NoVersion => Wrong::Version,
        Unmade::TooLong => Wrong::BodyLong,
    })?;
    files::write(rt, Word::Image, &made.bytes, body).map_err(Wrong::Unwritten)?;
    Ok(made.header)
}

// The words are looked at before any file, and KEY before BODY.
fn run(rt: &(impl Env + Files)) -> Result<Header, Wrong> {
    let count = words::count(rt);
    if count < 5 || 6 < count {
        return Err(Wrong::Count);
    }
    let version = version_asked(rt)?;
    let sealed = seal_asked(rt)?;
    let key = if count == 6 {
        Some(key_asked(rt)?)
    } else {
        None
    };
    make(
        rt,
        Wanted {
            version,
            sealed,
            key,
        },
    )
}

// There is nobody left to tell of a write that fails, so it is passed over.
fn main(rt: HostRuntime) {
    match run(&rt) {
        Ok(header) => {
            words::print(&rt, &rt, Word::Image);
            let _ = print!(rt; ": {}\n", Report(header));
        }
        Err(wrong) => wrong.print(&rt, &rt.stderr()),
    }
}
