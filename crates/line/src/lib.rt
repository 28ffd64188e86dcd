// A line of hex, and the line that answers it.
#![tactic(auto)]

ghost use Rattle.std.specs.Prelude.{◌≤◌, ◌<◌, ◌*◌, ◌/◌, ◌≡◌, [], ◌∷◌, ◌++◌, length, take, is_some, IfSome};
ghost use Rattle.packet.specs.Packets.{opcode_of, number_of};
ghost use Rattle.line.specs.Hex.{digit_of, pair_of, are_pairs, bytes_of, capital, decimal_of};
ghost use Rattle.line.specs.Answer.{ok_line, no_line, bad_line, line_of, answer_of, Counted};

use packet::{Command, Refusal, Request};

// The most digits of a line that is read.
pub const LONGEST: usize = 520;

// A line with its newline: the first `len` bytes.
// Kept: `answer` can't fail and there is no heap, so the line stands in a fixed array with its length.
#[derive(Clone, Copy)]
pub struct Text {
    pub bytes: [u8; 12],
    pub len: usize,
    pub ghost fits: { Counted len bytes },
}

impl Text {
    // The line alone.
    pub fn as_slice(&self) -> &[u8]
        ensures { result.now ≡ take self.now.len self.now.bytes }
    {
        &self.bytes[..self.len]
    }
}

// The value of a hex digit of either case.
// Kept: hex read and written digit by digit, here and in `pair`, `decode` and `digit`: the library has no digit of a base, and `nibble_of` and `capital` say each.
#[tactic(auto, unfolding(basics::specs::Choice::pick))]
pub fn nibble(c: u8) -> Option<u8>
    ensures { result ≡ digit_of c }
{
    match c {
        b'0'..=b'9' => Some(c - b'0'),
        b'A'..=b'F' => Some(c - b'A' + 10),
        b'a'..=b'f' => Some(c - b'a' + 10),
        _ => None,
    }
}

// The byte that a pair of digits stands for.
#[tactic(auto, unfolding(basics::specs::Choice::pick))]
pub fn pair(high: u8, low: u8) -> Option<u8>
    ensures { result ≡ pair_of high low }
{
    Some(16 * nibble(high)? + nibble(low)?)
}

// The bytes that the pairs of a line stand for, written to the start of out; how many. None where the line is not made of pairs.
// Kept: a count and no slice: `bytes` says what stands in `out` after the call, which a slice lent from it can't.
pub fn decode(line: &[u8], out: &mut [u8]) -> Option<usize>
    requires { length line.now ≤ 2 * length out.old }
    ensures pairs { is_some result ≡ are_pairs line.now }
    ensures count { IfSome result (λ n. n ≡ length line.now / 2) }
    ensures bytes { IfSome result (λ n. take n out.new ≡ bytes_of line.now) }
{
    let (pairs, []) = line.as_chunks::<2>() else {
        return None;
    };
    for (i, [high, low]) in pairs.iter().enumerate() {
        out[i] = pair(*high, *low)?;
    }
    Some(pairs.len())
}

// A hex digit in capitals.
#[tactic(auto, unfolding(basics::specs::Choice::pick))]
pub fn digit(d: u8) -> u8
    requires { d < 16 }
    ensures { result ≡ capital d }
{
    if d < 10 { b'0' + d } else { b'A' - 10 + d }
}

// The first `at` bytes of head, then a number in decimal and the newline.
// Kept: the library prints numbers to a writer that can fail or to the heap, and `answer` can do neither.
fn ended(head: [u8; 12], at: usize, n: u8) -> Text
    requires { at ≤ 8 }
    ensures { take result.len result.bytes ≡ take at head ++ (decimal_of n ++ (10 ∷ [])) }
{
    let mut bytes = head;
    if n < 10 {
        bytes[at] = b'0' + n;
        bytes[at + 1] = b'\n';
        return Text { bytes, len: at + 2 };
    }
    if n < 100 {
        bytes[at] = b'0' + n / 10;
        bytes[at + 1] = b'0' + n % 10;
        bytes[at + 2] = b'\n';
        return Text { bytes, len: at + 3 };
    }
    bytes[at] = b'0' + n / 100;
    bytes[at + 1] = b'0' + n / 10 % 10;
    bytes[at + 2] = b'0' + n % 10;
    bytes[at + 3] = b'\n';
    Text { bytes, len: at + 4 }
}

fn ok_text(command: Command, n: u8) -> Text
    ensures { take result.len result.bytes ≡ ok_line (opcode_of command) n }
{
    let [high, low] = u16::from(command).to_be_bytes();
    let a = digit(high / 16);
    let b = digit(high % 16);
    let c = digit(low / 16);
    let d = digit(low % 16);
    ended([b'o', b'k', b' ', a, b, c, d, b' ', 0, 0, 0, 0], 8, n)
}

fn no_text(refusal: Refusal) -> Text
    ensures { take result.len result.bytes ≡ no_line (number_of refusal) }
{
    let n = u8::from(refusal);
    ended([b'n', b'o', b' ', 0, 0, 0, 0, 0, 0, 0, 0, 0], 3, n)
}

fn bad_text() -> Text
    ensures { take result.len result.bytes ≡ bad_line }
{
    Text {
        bytes: [b'b', b'a', b'd', b'\n', 0, 0, 0, 0, 0, 0, 0, 0],
        len: 4,
    }
}

fn reading_text(reading: Result<Request, Refusal>) -> Text
    ensures { take result.len result.bytes ≡ line_of reading }
{
    match reading {
        Ok(Request { command, length }) => ok_text(command, length),
        Err(refusal) => no_text(refusal),
    }
}

// The line that answers a line.
#[tactic(auto, unfolding(basics::specs::Choice::pick, crate::specs::Answer::answer_of))]
pub fn answer(line: &[u8]) -> Text
    ensures { take result.len result.bytes ≡ answer_of line.now }
{
    if LONGEST < line.len() {
        return bad_text();
    }
    let mut bytes = [0; LONGEST / 2];
    match decode(line, &mut bytes) {
        Some(n) => reading_text(packet::read(&bytes[..n])),
        None => bad_text(),
    }
}
