// One line of a script, read: the order that it is, with its numbers and its bytes.
#![tactic(auto)]

ghost use Rattle.std.specs.Prelude.{◌≡◌, ◌≤◌, ◌<◌, IfOk, length, take, eqb};
ghost use Rattle.line.specs.Answer.{Counted};
ghost use Rattle.script.specs.Words.{first_of, rest_at, rest_of, place_in, decimal_in, pair_in, packet_bytes};
ghost use Rattle.std.specs.List.{position};
ghost use Rattle.std.specs.Option.{ok_or};
ghost use Rattle.device.specs.Kind.{sector_count};
ghost use Rattle.script.specs.Orders.{digits_as, read_as, pairs_in, work_in, cut_in, load_in, fill_in, word_order, lone_order, order_of, BehindWord, InLine};

use device::Device;
use std::fmt;

// The most bytes of a line that is read.
pub const LONGEST: usize = 4400;

// What a line asks for. Bytes that stand in the line are lent from it.
#[derive(Clone, Copy)]
pub enum Order<Bytes> {
    // an empty line or a remark
    Nothing,
    // a packet, by its hex digits
    Packet { digits: Bytes },
    // bytes on the serial line, likewise
    Serial { digits: Bytes },
    Restart,
    Work { stores: usize },
    Cut { filler: u8, through: bool },
    // the bytes of the file with this name into flash
    Load { sector: usize, name: Bytes },
    Dump { sector: usize },
    Map,
    Record,
    State,
    Erase { sector: usize },
    Fill { sector: usize, byte: u8 },
    Fresh,
}

// What is wrong with a line.
#[derive(Clone, Copy)]
pub enum Fault {
    // over 4,400 bytes
    LineLong,
    // no such order, or words behind one that has none
    NoOrder,
    // over 260 bytes
    PacketLong,
    // no hex pairs
    NoPairs,
    // the same of bytes on the serial line
    SerialLong,
    NoSerialPairs,
    // no number from 1 to 4294967295
    NoCount,
    // no number from 0 to 243
    NoSector,
    // no two hex digits
    NoByte,
    // neither through nor not
    NoOutcome,
    // no name of a file
    NoFile,
}

impl fmt::Display for Fault {
    ghost use Rattle.std.specs.Prelude.{Some};
    ghost use Rattle.script.specs.Faults.{fault_text};

    ghost output = { λ fault. Some (fault_text fault) };

    fn fmt<W: fmt::Write>(&self, f: &mut fmt::Formatter<W>) -> fmt::Result {
        f.write_str(match self {
            Fault::LineLong => "bad line: over 4400 bytes",
            Fault::NoOrder => "bad order: unknown",
            Fault::PacketLong => "bad packet: over 260 bytes",
            Fault::NoPairs => "bad packet: no hex pairs",
            Fault::SerialLong => "bad serial: over 260 bytes",
            Fault::NoSerialPairs => "bad serial: no hex pairs",
            Fault::NoCount => "bad count: 1 to 4294967295",
            Fault::NoSector => "bad sector: 0 to 243",
            Fault::NoByte => "bad byte: two hex digits",
            Fault::NoOutcome => "bad word: through or not",
            Fault::NoFile => "bad file: no name",
        })
    }
}

// The place of the first blank.
fn blank(text: &[u8]) -> Option<usize>
    ensures { result ≡ position (λ c. eqb c 32) text.now }
{
    text.iter().position(|c| *c == b' ')
}

// The first word, and what follows it and one blank: nothing, where there is no blank.
#[tactic(auto, unfolding(basics::specs::Choice::pick), using(crate::proofs::Laws::places))]
fn split(text: &[u8]) -> (&[u8], &[u8])
    ensures first { result.0.now ≡ first_of text.now }
    ensures rest { result.1.now ≡ rest_of text.now }
    ensures place { result.1.ref_ptr ≡ place_in text.entry.ref_ptr (rest_at text.now) }
{
    match blank(text) {
        Some(n) => (&text[..n], &text[n + 1..]),
        None => (text, &text[text.len()..]),
    }
}

// A number in decimal, below the limit.
// Kept: digit by digit: the library's `parse` takes a plus sign, which `decimal_in` refuses.
#[tactic(auto, unfolding(basics::specs::Choice::pick, crate::specs::Words::decimal_in, crate::specs::Words::are_digits, crate::specs::Words::value_from), using(crate::proofs::Laws::digits))]
fn number(word: &[u8], limit: usize) -> Option<usize>
    requires { (0 < limit) × (limit ≤ 4294967296) }
    ensures { result ≡ decimal_in limit word.now }
{
    if word.is_empty() {
        return None;
    }
    let mut value = 0;
    for c in word {
        if !c.is_ascii_digit() {
            return None;
        }
        value = 10 * value + (*c - b'0') as usize;
        if limit <= value {
            return None;
        }
    }
    Some(value)
}

// The number of a sector.
fn sector(word: &[u8]) -> Result<usize, Fault>
    ensures { result ≡ ok_or (decimal_in sector_count word.now) Fault.NoSector }
{
    number(word, Device::SECTOR_COUNT).ok_or(Fault::NoSector)
}

// A byte as two hex digits.
#[tactic(auto, unfolding(basics::specs::Choice::pick, crate::specs::Words::pair_in))]
fn hex_byte(word: &[u8]) -> Option<u8>
    ensures { result ≡ pair_in word.now }
{
    let [high, low] = word else {
        return None;
    };
    line::pair(*high, *low)
}

// The bytes that hex digits stand for, written to the start of out; how many. None of them where the digits are no pairs, or too many.
// Kept: no bytes and no None: `packet_bytes` can't fail, and its definition has no bytes there. And a count and no slice, as in `line::decode`.
#[tactic(auto, unfolding(basics::specs::Choice::pick, crate::specs::Words::packet_bytes))]
pub fn packet_bytes(digits: &[u8], out: &mut [u8; 260]) -> usize
    ensures bytes { take result out.new ≡ packet_bytes digits.now }
    ensures fits { Counted result out.new }
{
    if line::LONGEST < digits.len() {
        return 0;
    }
    line::decode(digits, out).unwrap_or(0)
}

// Hex pairs, or what is wrong with them.
#[tactic(auto, unfolding(basics::specs::Choice::pick, crate::specs::Orders::pairs_in))]
fn pairs(digits: &[u8], long: Fault, unpaired: Fault) -> Result<&[u8], Fault>
    ensures digits { digits_as result ≡ pairs_in digits.now long unpaired }
    ensures place { IfOk result (λ pairs. pairs.ref_ptr ≡ digits.entry.ref_ptr) }
{
    if line::LONGEST < digits.len() {
        return Err(long);
    }
    let mut bytes = [0u8; line::LONGEST / 2];
    match line::decode(digits, &mut bytes) {
        Some(_) => Ok(digits),
        None => Err(unpaired),
    }
}

#[tactic(auto, unfolding(basics::specs::Choice::pick))]
fn work(words: &[u8]) -> Result<Order<&[u8]>, Fault>
    ensures order { read_as result ≡ work_in words.now }
    ensures place { BehindWord words.entry.ref_ptr words.now result }
{
    match number(words, 4294967296) {
        None | Some(0) => Err(Fault::NoCount),
        Some(stores) => Ok(Order::Work { stores }),
    }
}

#[tactic(auto, unfolding(basics::specs::Choice::pick), using(crate::proofs::Laws::words))]
fn cut(words: &[u8]) -> Result<Order<&[u8]>, Fault>
    ensures order { read_as result ≡ cut_in words.now }
    ensures place { BehindWord words.entry.ref_ptr words.now result }
{
    let (byte, outcome) = split(words);
    let filler = hex_byte(byte).ok_or(Fault::NoByte)?;
    match outcome {
        b"through" => Ok(Order::Cut {
            filler,
            through: true,
        }),
        b"not" => Ok(Order::Cut {
            filler,
            through: false,
        }),
        _ => Err(Fault::NoOutcome),
    }
}

#[tactic(auto, unfolding(basics::specs::Choice::pick))]
fn load(words: &[u8]) -> Result<Order<&[u8]>, Fault>
    ensures order { read_as result ≡ load_in words.now }
    ensures place { BehindWord words.entry.ref_ptr words.now result }
{
    let (number, name) = split(words);
    let sector = sector(number)?;
    if name.is_empty() {
        return Err(Fault::NoFile);
    }
    Ok(Order::Load { sector, name })
}

#[tactic(auto, unfolding(basics::specs::Choice::pick))]
fn fill(words: &[u8]) -> Result<Order<&[u8]>, Fault>
    ensures order { read_as result ≡ fill_in words.now }
    ensures place { BehindWord words.entry.ref_ptr words.now result }
{
    let (number, byte) = split(words);
    let sector = sector(number)?;
    let byte = hex_byte(byte).ok_or(Fault::NoByte)?;
    Ok(Order::Fill { sector, byte })
}

// An order of several words, by the first of them.
#[tactic(auto, unfolding(basics::specs::Choice::pick, crate::specs::Orders::word_order, crate::specs::Orders::flash_order), using(crate::proofs::Laws::words))]
fn worded<'a>(word: &[u8], words: &'a [u8]) -> Result<Order<&'a [u8]>, Fault>
    ensures order { read_as result ≡ word_order word.now words.now }
    ensures place { BehindWord words.entry.ref_ptr words.now result }
{
    match word {
        b"packet" => Ok(Order::Packet {
            digits: pairs(words, Fault::PacketLong, Fault::NoPairs)?,
        }),
        b"serial" => Ok(Order::Serial {
            digits: pairs(words, Fault::SerialLong, Fault::NoSerialPairs)?,
        }),
        b"work" => work(words),
        b"cut" => cut(words),
        b"load" => load(words),
        b"dump" => Ok(Order::Dump {
            sector: sector(words)?,
        }),
        b"erase" => Ok(Order::Erase {
            sector: sector(words)?,
        }),
        b"fill" => fill(words),
        _ => Err(Fault::NoOrder),
    }
}

// An order of one word, or of several.
#[tactic(auto, unfolding(basics::specs::Choice::pick, crate::specs::Orders::lone_order, crate::specs::Orders::show_order), using(crate::proofs::Laws::words))]
fn alone(text: &[u8]) -> Result<Order<&[u8]>, Fault>
    ensures order { read_as result ≡ lone_order text.now }
    ensures place { InLine text.entry.ref_ptr text.now result }
{
    match text {
        b"restart" => Ok(Order::Restart),
        b"work" => Ok(Order::Work { stores: 1 }),
        b"fresh" => Ok(Order::Fresh),
        b"map" => Ok(Order::Map),
        b"record" => Ok(Order::Record),
        b"state" => Ok(Order::State),
        _ => {
            let (word, words) = split(text);
            worded(word, words)
        }
    }
}

// The order that a line is.
#[tactic(auto, unfolding(basics::specs::Choice::pick, crate::specs::Orders::order_of))]
pub fn read(text: &[u8]) -> Result<Order<&[u8]>, Fault>
    ensures order { read_as result ≡ order_of text.now }
    ensures place { InLine text.entry.ref_ptr text.now result }
{
    if LONGEST < text.len() {
        return Err(Fault::LineLong);
    }
    match text {
        [] | [b'#', ..] => Ok(Order::Nothing),
        _ => alone(text),
    }
}
