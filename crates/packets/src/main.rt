// Reads one packet a line in hex from standard input, and writes for each line its answer.
#![tactic(auto)]

use loading::lines::Lines;

// Room for one byte more than the longest line that is read: a line that fills it is too long.
const ROOM: usize = line::LONGEST + 1;

// Writes the answer to a line; a write that fails is passed over.
fn say(rt: &impl Print, text: &[u8]) {
    let answer = line::answer(text);
    let _ = rt.write_all(answer.as_slice());
}

// The count of turns is there because every loop must end: no input has so many lines.
fn main(rt: HostRuntime) {
    let mut lines = Lines::<_, ROOM>::new(rt.stdin());
    for _ in 0..u64::MAX {
        let Some(line) = lines.next_line() else {
            break;
        };
        say(&rt, line);
    }
}
