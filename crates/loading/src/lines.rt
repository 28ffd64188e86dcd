// An input, line by line, in fixed memory.
ghost use Rattle.std.specs.Prelude.{◌≤◌, ◌≡◌, [], ◌∷◌, ◌++◌, IfSome, length, take};

use std::io::Read;

// How many bytes are read at a time.
const CHUNK: usize = 4096;

// The bytes of a source, one after another.
// Kept: a chunk with two places beside it, since the library's buffered reader needs the heap and there is none.
#[derive(Drop)]
struct Bytes<R> {
    source: R,
    // of what was read last, the bytes from `at` to `end` are still to be taken
    chunk: [u8; CHUNK],
    at: usize,
    end: usize,
    ghost in_chunk: { end ≤ 4096 },
}

impl<R: Read + Drop> Bytes<R> {
    ghost use Rattle.std.specs.Io.KnownBytes.{Keeps};
    ghost use Rattle.loading.specs.Lines.{left};

    // Where the chunk is used up, reads the next one. A read that fails is the end. (Apart from `next`, which takes over twice the time with it in line.)
    #[cold]
    #[inline(never)]
    fn fill(&mut self)
        ensures { Keeps (left R.remaining self.old) (left R.remaining self.new) }
    {
        if self.end <= self.at {
            self.at = 0;
            self.end = self.source.read(&mut self.chunk).unwrap_or(0);
        }
    }
}

impl<R: Read + Drop> Iterator for Bytes<R> {
    ghost use Rattle.loading.specs.Lines.{left, Takes};

    type Item = u8;

    ghost next_gives = { λ before byte after. Takes (left R.remaining before) byte (left R.remaining after) };

    fn next(&mut self) -> Option<u8> {
        if self.end <= self.at {
            self.fill();
            if self.end <= self.at {
                return None;
            }
        }
        let byte = self.chunk[self.at];
        self.at += 1;
        Some(byte)
    }
}

// A byte more of a line, of which n bytes are kept. What a line has past the room for it is dropped.
// Kept: an array with a count, since there is no heap for a Vec, and of a `Cursor` over an array no clause says which bytes it has.
fn keep(line: &mut [u8], n: usize, byte: u8) -> usize
    requires { n ≤ length line.old }
    ensures room { result ≤ length line.new }
    ensures kept { take result line.new ≡ take (length line.old) (take n line.old ++ byte ∷ []) }
{
    if n < line.len() {
        line[n] = byte;
        return n + 1;
    }
    n
}

// The lines of a source. Of a line the first ROOM bytes are kept; what it has past them is dropped.
#[derive(Drop)]
pub struct Lines<R, const ROOM: usize> {
    bytes: Bytes<R>,
    line: [u8; ROOM],
    // the input has ended, and is read no more
    over: bool,
}

impl<R: Read + Drop, const ROOM: usize> Lines<R, ROOM> {
    ghost use Rattle.std.specs.Io.KnownBytes.{Keeps};
    ghost use Rattle.loading.specs.Lines.{left, Begins};

    pub fn new(source: R) -> Self
        ensures { Keeps (R.remaining source) (left R.remaining result.bytes) }
    {
        Lines {
            bytes: Bytes {
                source,
                chunk: [0; CHUNK],
                at: 0,
                end: 0,
            },
            line: [0; ROOM],
            over: false,
        }
    }

    // The next line, without its newline. A last line with no newline counts if it is not empty. The count of turns is there because every loop
    // must end: no line has so many bytes.
    pub fn next_line(&mut self) -> Option<&[u8]>
        ensures { IfSome result (λ line. Begins ROOM (left R.remaining self.old.bytes) line.now) }
    {
        if self.over {
            return None;
        }
        let mut n = 0;
        for _ in 0..u64::MAX {
            match self.bytes.next() {
                Some(b'\n') => return self.line.get(..n),
                Some(byte) => n = keep(&mut self.line, n, byte),
                None => break,
            }
        }
        self.over = true;
        if n == 0 {
            return None;
        }
        self.line.get(..n)
    }
}
