// The line that answers an order.
use crate::flash;
use crate::state::State;
use answer::Reason;
use device::{Device, Head};
use packet::Refusal;
use script::Fault;
use std::{fmt, str};

// What an order is answered.
#[derive(Clone, Copy)]
pub enum Reply<'a> {
    Done,
    // the response to a packet, and why a key was turned down
    Response {
        response: [u8; 8],
        reason: Option<Reason>,
    },
    // what was sent on the serial line, likewise
    Sent {
        bytes: &'a [u8],
        reason: Option<Reason>,
    },
    Event([u8; 6]),
    Made {
        made: usize,
        left: u32,
    },
    // how many bytes of a file, in which sectors
    Loaded {
        count: usize,
        from: usize,
        to: usize,
    },
    Bytes(&'a [u8]),
    Map(&'a [u8]),
    State(Head),
}

// Why an order is not done.
#[derive(Clone, Copy)]
pub enum Trouble {
    BadLine(Fault),
    Refused(Refusal),
    FileClosed,
    FileUnread,
    FileEmpty,
    FileTooLong,
}

pub type Answer<'a> = Result<Reply<'a>, Trouble>;

impl From<Fault> for Trouble {
    fn from(fault: Fault) -> Trouble {
        Trouble::BadLine(fault)
    }
}

impl From<Refusal> for Trouble {
    fn from(refusal: Refusal) -> Trouble {
        Trouble::Refused(refusal)
    }
}

// How many bytes are printed at a time.
const PIECE: usize = 64;

// Bytes as hex digits, printed piece by piece: one by one, those of a sector take many times as long.
#[derive(Clone, Copy)]
struct Hex<'a>(&'a [u8]);

// Why a key was turned down, behind a blank; nothing for no reason.
#[derive(Clone, Copy)]
struct Why(Option<Reason>);

// The flash, a character a sector.
#[derive(Clone, Copy)]
struct Map<'a>(&'a [u8]);

impl fmt::Display for Hex<'_> {
    fn fmt<W: fmt::Write>(&self, f: &mut fmt::Formatter<W>) -> fmt::Result {
        for piece in self.0.chunks(PIECE) {
            let mut digits = [0; 2 * PIECE];
            let (pairs, _) = digits.as_chunks_mut::<2>();
            for (pair, byte) in pairs.iter_mut().zip(piece) {
                *pair = [line::digit(byte / 16), line::digit(byte % 16)];
            }
            let text = digits.get(..2 * piece.len()).unwrap_or(&[]);
            f.write_str(str::from_utf8(text).unwrap_or(""))?;
        }
        Ok(())
    }
}

impl fmt::Display for Why {
    fn fmt<W: fmt::Write>(&self, f: &mut fmt::Formatter<W>) -> fmt::Result {
        match self.0 {
            Some(reason) => write!(f, " {reason}"),
            None => Ok(()),
        }
    }
}

impl fmt::Display for Map<'_> {
    fn fmt<W: fmt::Write>(&self, f: &mut fmt::Formatter<W>) -> fmt::Result {
        for sector in self.0.chunks_exact(Device::SECTOR_SIZE) {
            f.write_char(flash::character(sector))?;
        }
        Ok(())
    }
}

impl fmt::Display for Reply<'_> {
    fn fmt<W: fmt::Write>(&self, f: &mut fmt::Formatter<W>) -> fmt::Result {
        match self {
            Reply::Done => f.write_str("ok"),
            Reply::Response { response, reason } => {
                let message = reply::next_message(b"", response);
                write!(f, "reply {}{}", Hex(message), Why(*reason))
            }
            Reply::Sent { bytes, reason } => write!(f, "sent {}{}", Hex(bytes), Why(*reason)),
            Reply::Event(event) => write!(f, "event {}", Hex(event)),
            Reply::Made { made, left } => write!(f, "made {made} left {left}"),
            Reply::Loaded { count, from, to } => write!(
                f,
                "loaded {count} bytes in sectors {from} to {to}"
            ),
            Reply::Bytes(bytes) => write!(f, "{}", Hex(bytes)),
            Reply::Map(flash) => write!(f, "{}", Map(flash)),
            Reply::State(head) => write!(f, "{}", State(*head)),
        }
    }
}

impl fmt::Display for Trouble {
    fn fmt<W: fmt::Write>(&self, f: &mut fmt::Formatter<W>) -> fmt::Result {
        match self {
            Trouble::BadLine(fault) => write!(f, "{fault}"),
            Trouble::Refused(refusal) => write!(f, "refused {}", u8::from(*refusal)),
            Trouble::FileClosed => f.write_str("bad file: cannot be opened"),
            Trouble::FileUnread => f.write_str("bad file: cannot be read"),
            Trouble::FileEmpty => f.write_str("bad file: empty"),
            Trouble::FileTooLong => f.write_str("bad file: does not fit"),
        }
    }
}
