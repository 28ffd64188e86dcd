// Plays a script on one device: reads orders, one a line, from standard input, and writes for each line exactly one reply line. docs/PLAY.md has
// every order.
#![tactic(auto)]

mod bench;
mod flash;
mod replies;
mod state;

use bench::Bench;
use loading::lines::Lines;
use std::fmt::Display;
use std::io::{Cursor, Write};

// Room for one byte more than the longest line that is read: a line that fills it is too long.
const ROOM: usize = script::LONGEST + 1;

// Room for the longest reply line, a record's digits, and more.
const LONGEST: usize = 16384;

// Writes a line at once, in room that is made but once: to fill it with zeros for each line takes longer than most lines. A write that fails is
// passed over.
fn say(rt: &impl Print, room: &mut [u8; LONGEST], reply: &impl Display) {
    let mut line = Cursor::new(room.as_mut_slice());
    let _ = writeln!(line, "{reply}");
    let end = line.position() as usize;
    if let Some(text) = room.get(..end) {
        let _ = rt.write_all(text);
    }
}

// Plays the script. The count of turns is there because every loop must end: no script has so many lines.
fn main(rt: HostRuntime) {
    let mut lines = Lines::<_, ROOM>::new(rt.stdin());
    let mut bench = Bench::new();
    let mut room = [0; LONGEST];
    for _ in 0..u64::MAX {
        let Some(line) = lines.next_line() else {
            break;
        };
        match bench.answer(&rt, line) {
            Ok(reply) => say(&rt, &mut room, &reply),
            Err(trouble) => say(&rt, &mut room, &trouble),
        }
    }
}
