// Why no image was made: one line on standard error, with what a word must be, the word that was given, and what is wrong with it. There is
// nobody left to tell of a write that fails, so it is passed over.
use crate::words;
use crate::words::Word;
use std::env::Env;
use std::io::{Cursor, Write};
use std::{fmt, io, str};

#[derive(Clone, Copy)]
pub enum Wrong {
    // the number of words
    Count,
    // no number, or the one that stands for no stack
    Version,
    // neither sealed nor unsealed
    Seal,
    KeyUnread(io::Error),
    // the key has this many bytes; `None`: more than there may be
    KeyLength(Option<usize>),
    BodyUnread(io::Error),
    BodyLong,
    // the body's length is no multiple of 4 bytes
    NotWords(usize),
    Unwritten(io::Error),
}

// What is wrong with a word.
#[derive(Clone, Copy)]
enum Fault {
    IsNot,
    // the file that it names has this many bytes; `None`: more than there may be
    Has(Option<usize>),
    // the file that it names can't be used
    Unusable(io::Error),
}

impl Wrong {
    // Which word is wrong, and how; none, where there are too few or too many.
    fn fault(&self) -> Option<(Word, Fault)> {
        match *self {
            Wrong::Count => None,
            Wrong::Version => Some((Word::Version, Fault::IsNot)),
            Wrong::Seal => Some((Word::Seal, Fault::IsNot)),
            Wrong::KeyUnread(error) => Some((Word::Key, Fault::Unusable(error))),
            Wrong::KeyLength(has) => Some((Word::Key, Fault::Has(has))),
            Wrong::BodyUnread(error) => Some((Word::Body, Fault::Unusable(error))),
            Wrong::BodyLong => Some((Word::Body, Fault::Has(None))),
            Wrong::NotWords(n) => Some((Word::Body, Fault::Has(Some(n)))),
            Wrong::Unwritten(error) => Some((Word::Image, Fault::Unusable(error))),
        }
    }

    // The line.
    pub fn print(&self, rt: &impl Env, errors: &impl Print) {
        let Some((word, fault)) = self.fault() else {
            let _ = print!(errors; "{self}\n");
            return;
        };
        let _ = print!(errors; "makeimage: {self}: '");
        words::print(rt, errors, word);
        let _ = print!(errors; "'{fault}\n");
    }
}

// What must be.
impl fmt::Display for Wrong {
    fn fmt<W: fmt::Write>(&self, f: &mut fmt::Formatter<W>) -> fmt::Result {
        let longest = maker::LONGEST;
        match self {
            Wrong::Count => f.write_str(
                "usage: makeimage BODY IMAGE VERSION sealed|unsealed [KEY]",
            ),
            Wrong::Version => f.write_str(
                "VERSION must be a number from 0 to 4294967294, decimal or hex after 0x",
            ),
            Wrong::Seal => f.write_str("the word after VERSION must be sealed or unsealed"),
            Wrong::KeyUnread(_) => f.write_str("KEY must be a file that can be read"),
            Wrong::KeyLength(_) => f.write_str("KEY must have exactly 64 bytes"),
            Wrong::BodyUnread(_) => f.write_str("BODY must be a file that can be read"),
            Wrong::BodyLong => write!(f, "BODY must have at most {longest} bytes"),
            Wrong::NotWords(_) => f.write_str("BODY must have a multiple of 4 bytes"),
            Wrong::Unwritten(_) => f.write_str("IMAGE must be a new file that can be written"),
        }
    }
}

impl fmt::Display for Fault {
    fn fmt<W: fmt::Write>(&self, f: &mut fmt::Formatter<W>) -> fmt::Result {
        match self {
            Fault::IsNot => f.write_str(" is not"),
            Fault::Has(Some(n)) => write!(f, " has {n}"),
            Fault::Has(None) => f.write_str(" has more"),
            Fault::Unusable(error) => {
                f.write_str(": ")?;
                write_reason(f, error)
            }
        }
    }
}

// The system's own words for an error, without the number that stands behind them.
fn write_reason<W: fmt::Write>(f: &mut fmt::Formatter<W>, error: &io::Error) -> fmt::Result {
    let mut room = Cursor::new([0; 256]);
    let _ = write!(room, "{error}");
    let end = room.position() as usize;
    let bytes = room.into_inner();
    let text = bytes
        .get(..end)
        .and_then(|bytes| str::from_utf8(bytes).ok())
        .unwrap_or("");
    f.write_str(
        text.split_once(" (os error ")
            .map_or(text, |(words, _)| words),
    )
}
