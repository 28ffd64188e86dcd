// The calls by value, each with all the faults that no script of `play` can have, then with one after the other mended, until it is taken. A
// line has the call and its faults, then the answer, the whole reply buffer and the device after it; where device or flash changed, it says so. A
// write that fails is passed over.
#![tactic(auto)]

use Call::{Cut, Handle, Restart, Work};
use Kind::{Delete, Idle, Stack, Unsound};
use device::{Device, Mode, places};
use packet::Refusal;
use services::value::{self, After};
use std::fmt;

#[derive(Clone, Copy, PartialEq, Eq)]
enum Call {
    Handle,
    Restart,
    Work,
    Cut,
}

// A device: unsound, idle, its stack running, with a delete under way.
#[derive(Clone, Copy, PartialEq, Eq)]
enum Kind {
    Unsound,
    Idle,
    Stack,
    Delete,
}

// The call, the device, how many bytes the reply buffer lacks of 12, the flash and the filler of their lengths, and the packet's first byte.
#[derive(Clone, Copy)]
struct Row(Call, Kind, usize, usize, usize, u8);

const ROWS: [Row; 19] = [
    Row(Handle, Unsound, 5, 1, 0, 0x11),
    Row(Handle, Stack, 5, 1, 0, 0x11),
    Row(Handle, Stack, 5, 0, 0, 0x11),
    Row(Handle, Stack, 0, 0, 0, 0x11),
    Row(Handle, Stack, 0, 0, 0, 0x10),
    Row(Restart, Unsound, 7, 0, 0, 0),
    Row(Restart, Stack, 7, 0, 0, 0),
    Row(Restart, Stack, 6, 0, 0, 0),
    Row(Restart, Delete, 0, 0, 0, 0),
    Row(Work, Unsound, 12, 1, 0, 0),
    Row(Work, Delete, 12, 1, 0, 0),
    Row(Work, Delete, 12, 0, 0, 0),
    Row(Work, Idle, 12, 0, 0, 0),
    Row(Cut, Unsound, 7, 1, 1, 0),
    Row(Cut, Delete, 7, 1, 1, 0),
    Row(Cut, Delete, 7, 0, 1, 0),
    Row(Cut, Delete, 0, 0, 1, 0),
    Row(Cut, Idle, 0, 0, 1, 0),
    Row(Cut, Delete, 0, 0, 0, 0),
];

// The flash. (Apart from `run`, whose check would run out of memory over so long a literal.)
// Kept: the program `play` has a function like this, and one like `Hex` that prints capitals; a crate for the few lines of two programs is no plainer.
fn flash() -> [u8; 999424] {
    [0; 999424]
}

impl Kind {
    // Where there is a stack, key 1 is stored, loaded and locked; a stack that runs was asked for its state once. The unsound one has a delete under
    // way and no stack.
    fn device(self) -> Device {
        let Device { mut bytes } = Device::fresh();
        if self == Idle {
            return Device { bytes };
        }
        bytes[places::PRESENT] = (self != Unsound) as u8;
        bytes[places::VERSION] = 5;
        bytes[places::SECTORS] = 4;
        bytes[places::BOUNDARY] = 240;
        bytes[places::MODE] = if self == Stack { 0 } else { 3 };
        bytes[places::ASKED] = (self == Stack) as u8;
        bytes[places::COUNT] = 1;
        bytes[places::KINDS + 1] = 1;
        bytes[places::SIZES + 1] = 16;
        bytes[places::LOADED] = 1;
        bytes[places::LOCKS + 1] = 1;
        Device { bytes }
    }
}

impl fmt::Display for Call {
    fn fmt<W: fmt::Write>(&self, f: &mut fmt::Formatter<W>) -> fmt::Result {
        f.write_str(match self {
            Handle => "handle",
            Restart => "restart",
            Work => "work",
            Cut => "cut",
        })
    }
}

// The call and its faults.
impl fmt::Display for Row {
    fn fmt<W: fmt::Write>(&self, f: &mut fmt::Formatter<W>) -> fmt::Result {
        let Row(call, kind, reply, flash, filler, first) = *self;
        write!(f, "{call}")?;
        for (fault, text) in [
            (kind == Unsound, ", record unsound"),
            (flash == 1, ", flash short"),
            (reply == 5 || reply == 7, ", reply short"),
            (filler == 1, ", filler short"),
            (first == 0x11, ", packet damaged"),
        ] {
            if fault {
                f.write_str(text)?;
            }
        }
        Ok(())
    }
}

#[derive(Clone, Copy)]
struct Hex<'a>(&'a [u8]);

impl fmt::Display for Hex<'_> {
    fn fmt<W: fmt::Write>(&self, f: &mut fmt::Formatter<W>) -> fmt::Result {
        for byte in self.0 {
            write!(f, "{byte:02x}")?;
        }
        Ok(())
    }
}

// What a call gave back that answers no number: 0 in its place.
fn counted<T: Drop>(done: After<T>) -> After<u32> {
    let After { device, answer } = done;
    After {
        device,
        answer: answer.map(|_| 0),
    }
}

// Makes the call of a row, with GET_STATE as the packet.
fn make(row: &Row, d: Device, flash: &mut [u8], filler: &[u8], reply: &mut [u8]) -> After<u32> {
    let Row(call, _, _, _, _, first) = *row;
    match call {
        Handle => counted(value::handle(d, flash, &[first, 0x52, 0xFC, 0x00], reply)),
        Restart => counted(value::restart(d, reply)),
        Work => value::work(d, flash),
        Cut => counted(value::cut(d, flash, filler, true, reply)),
    }
}

// A buffer without the bytes that it lacks.
fn lend(buffer: &mut [u8], lacks: usize) -> &mut [u8] {
    let at = lacks.min(buffer.len());
    &mut buffer[at..]
}

// A row, what its call answered, and what changed.
#[derive(Clone, Copy)]
struct Outcome<'a> {
    row: &'a Row,
    answer: Result<u32, Refusal>,
    // what was lent for the reply; for work nothing
    reply: &'a [u8],
    before: Device,
    after: Device,
    flash: &'a [u8],
}

impl fmt::Display for Outcome<'_> {
    fn fmt<W: fmt::Write>(&self, f: &mut fmt::Formatter<W>) -> fmt::Result {
        write!(f, "{}: ", self.row)?;
        match self.answer {
            Ok(_) => f.write_str("taken ")?,
            Err(refusal) => write!(f, "refused {} ", u8::from(refusal))?,
        }
        if self.row.0 == Work {
            write!(f, "{}", self.answer.unwrap_or(0))?;
        } else {
            write!(f, "{}", Hex(self.reply))?;
        }
        let h = self.after.head();
        f.write_str(match h.mode {
            Mode::Stack => ", stack runs",
            Mode::Idle => ", FUS idle",
            _ => ", delete",
        })?;
        for (holds, text) in [
            (h.asked, ", asked once"),
            (h.loaded == 1, ", key 1 loaded"),
            (self.before.bytes != self.after.bytes, ", device changed"),
            (self.flash.iter().any(|byte| *byte != 0), ", flash changed"),
        ] {
            if holds {
                f.write_str(text)?;
            }
        }
        Ok(())
    }
}

// Runs a row, while a good response stands in the reply buffer, and writes its line.
fn run(rt: &impl Print, row: &Row) {
    let Row(_, kind, reply_lacks, flash_lacks, filler_lacks, _) = *row;
    let before = kind.device();
    let mut flash = flash();
    let mut reply = *b"\x11\x0E\x05\xFF\x52\xFC\x00\x00\xEE\xEE\xEE\xEE";
    let mut filler = [0x5A; 4096];
    let reply = lend(&mut reply, reply_lacks);
    let flash_lent = lend(&mut flash, flash_lacks);
    let After {
        device: after,
        answer,
    } = make(
        row,
        before,
        flash_lent,
        lend(&mut filler, filler_lacks),
        reply,
    );
    let outcome = Outcome {
        row,
        answer,
        reply,
        before,
        after,
        flash: &flash,
    };
    let _ = println!(rt; "{outcome}");
}

fn main(rt: HostRuntime) {
    for row in &ROWS {
        run(&rt, row);
    }
}
