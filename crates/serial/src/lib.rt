// The factory's serial line: special read and special write, a byte at a time, on a reader's bytes in place.
// Kept: the lent buffers are parameters and no struct: C lends each by itself, and `placed` speaks of each after the call.
#![tactic(auto)]

ghost use Rattle.std.specs.Prelude.{◌≡◌, true, [], ◌∷◌, ◌++◌, ◌+◌, ◌≤◌, Err, length};
ghost use Rattle.basics.specs.Choice.{pick};
ghost use Rattle.basics.specs.Words.{byte_at, zeros};
ghost use Rattle.reply.specs.Replies.{replied};
ghost use Rattle.answer.specs.Answers.{told};
ghost use Rattle.device.specs.Layout.{head_in};
ghost use Rattle.services.specs.Calls.{first};
ghost use Rattle.serial.specs.Line.{ack, nack, number_at, pair_right, is_write, line_command, command_in, opcode_right, address_right, address_checked, size_in, size_allowed, size_right, data_checked, xor_of, whole_if, opening_fate, address_fate, data_fate, judged, is_open, packet_in};
ghost use Rattle.serial.specs.Responses.{peek, response};
ghost use Rattle.serial.specs.Steps.{after_handle, handled_on, heard};
ghost use Rattle.serial.specs.InPlace.{reader_bytes, received_in, all_zero, is_reader, Filled, taken, heard_of, sent_told, reason_told, sending, placed, placed_by, stepped_in_place, fresh_placed, fresh_in_place};

use answer::Reason;
use device::{Mode, Record, fields, places};
use packet::Command;

pub const LENGTH: usize = 78;

// The bytes of a reader: how many bytes of the command under way were received, these, and zeros.
// Kept: a count and what it counts in one array: C keeps these bytes (include/grzelotka_record.h).
pub type Reader = [u8; LENGTH];

// What a packet is answered with.
const ACK: u8 = 0x79;

const NACK: u8 = 0x1F;

// What the bytes of a command received so far mean: more are to come, a packet is right, the command is whole, or something is wrong.
#[derive(Clone, Copy)]
pub enum Fate {
    More,
    Right,
    Whole(Command),
    Wrong,
}

// Why a call is refused.
#[derive(Clone, Copy, PartialEq, Eq)]
pub enum Unheard {
    OutShort,
    NoReader,
}

// What GET_STATE would next reply.
#[derive(Clone, Copy)]
pub struct Peek {
    pub state: u8,
    pub error: u8,
}

// How many bytes are sent, and why a key was turned down.
#[derive(Clone, Copy)]
// Kept: a count and no slice: `placed` says all of `out` after the call, which a slice lent from it can't.
pub struct Sent {
    pub count: u8,
    pub reason: Option<Reason>,
}

// A number of two bytes, high byte first.
fn number_at(s: &[u8], at: usize) -> usize
    requires { at ≤ 64 }
    ensures value { result ≡ number_at s.now at }
    ensures upper_bound { result ≤ 65535 }
{
    u16::from_be_bytes([basics::byte_at(s, at), basics::byte_at(s, at + 1)]) as usize
}

fn pair_right(s: &[u8]) -> bool
    ensures { result ≡ pair_right s.now }
{
    let pair = (basics::byte_at(s, 0), basics::byte_at(s, 1));
    matches!(pair, (0x50, 0xAF) | (0x51, 0xAE))
}

fn is_write(s: &[u8]) -> bool
    ensures { result ≡ is_write s.now }
{
    basics::byte_at(s, 0) == 0x51
}

// The opcodes of each pair.
#[tactic(auto, unfolding(crate::specs::Line::line_command, basics::specs::Choice::pick))]
fn line_command(write: bool, opcode: usize) -> Option<Command>
    ensures { result ≡ line_command write opcode }
{
    match (write, opcode) {
        (false, 0x54) => Some(Command::GetState),
        (true, 0x52) => Some(Command::FwDelete),
        (true, 0x53) => Some(Command::FwUpgrade),
        (true, 0x56) => Some(Command::UpdateAuthKey),
        (true, 0x57) => Some(Command::LockAuthKey),
        (true, 0x58) => Some(Command::StoreUsrKey),
        (true, 0x59) => Some(Command::LoadUsrKey),
        (true, 0x5A) => Some(Command::StartWs),
        _ => None,
    }
}

fn command_in(s: &[u8]) -> Option<Command>
    ensures { result ≡ command_in s.now }
{
    line_command(is_write(s), number_at(s, 2))
}

fn opcode_right(s: &[u8]) -> bool
    ensures { result ≡ opcode_right s.now }
{
    let high = basics::byte_at(s, 4) == 255 - basics::byte_at(s, 2);
    let low = basics::byte_at(s, 5) == 255 - basics::byte_at(s, 3);
    high && low && command_in(s).is_some()
}

fn address_right(s: &[u8]) -> bool
    ensures { result ≡ address_right s.now }
{
    number_at(s, 6) == 0
}

fn address_checked(s: &[u8]) -> bool
    ensures { result ≡ address_checked s.now }
{
    basics::byte_at(s, 8) == basics::byte_at(s, 6) ^ basics::byte_at(s, 7)
}

// May a command on the line have n bytes of data? `1..=0` has no number.
fn size_allowed(command: Option<Command>, n: usize) -> bool
    ensures { result ≡ size_allowed command n }
{
    let sizes = match command {
        Some(Command::UpdateAuthKey) => 65..=65,
        Some(Command::StoreUsrKey) => 2..=46,
        Some(Command::LoadUsrKey) => 1..=1,
        Some(Command::FwUpgrade | Command::FwDelete | Command::LockAuthKey | Command::StartWs) => {
            0..=0
        }
        _ => 1..=0,
    };
    sizes.contains(&n)
}

fn size_right(s: &[u8]) -> bool
    ensures { result ≡ size_right s.now }
{
    size_allowed(command_in(s), number_at(s, 9))
}

// The XOR of bytes.
fn xor_of(s: &[u8]) -> u8
    ensures { result ≡ xor_of s.now }
{
    s.iter().rfold(0, |x, b| b ^ x)
}

fn data_checked(s: &[u8]) -> bool
    requires { 12 + size_in s.now ≤ length s.now }
    ensures { result ≡ data_checked s.now }
{
    let end = 11 + number_at(s, 9);
    s[end] == xor_of(&s[9..end])
}

// By a test: the fate where it passes, else Wrong.
#[tactic(auto, unfolding(basics::specs::Choice::pick))]
fn fate_if(passes: bool, fate: Fate) -> Fate
    ensures { result ≡ pick passes fate Fate.Wrong }
{
    if passes { fate } else { Fate::Wrong }
}

fn whole_if(command: Option<Command>) -> Fate
    ensures { result ≡ whole_if command }
{
    command.map_or(Fate::Wrong, Fate::Whole)
}

// The pair and the opcode.
#[tactic(auto, unfolding(crate::specs::Line::opening_fate, basics::specs::Choice::pick))]
fn opening_fate(s: &[u8]) -> Fate
    ensures { result ≡ opening_fate s.now }
{
    match s.len() {
        0..=1 | 3..=5 => Fate::More,
        2 => fate_if(pair_right(s), Fate::Right),
        _ => fate_if(opcode_right(s), Fate::Right),
    }
}

// The address, which ends a read.
#[tactic(auto, unfolding(crate::specs::Line::address_fate, basics::specs::Choice::pick))]
fn address_fate(s: &[u8]) -> Fate
    ensures { result ≡ address_fate s.now }
{
    match s.len() {
        0..=7 => Fate::More,
        8 => fate_if(address_right(s), Fate::More),
        _ if !address_checked(s) => Fate::Wrong,
        _ if is_write(s) => Fate::Right,
        _ => whole_if(command_in(s)),
    }
}

// The data, which end a write.
#[tactic(auto, unfolding(crate::specs::Line::data_fate, basics::specs::Choice::pick))]
fn data_fate(s: &[u8]) -> Fate
    ensures { result ≡ data_fate s.now }
{
    match s.len() {
        0..=10 => Fate::More,
        11 => fate_if(size_right(s), Fate::More),
        n if n < 12 + number_at(s, 9) => Fate::More,
        _ if data_checked(s) => whole_if(command_in(s)),
        _ => Fate::Wrong,
    }
}

// The bytes received, by the table of phases: a phase is tested after its last byte.
#[tactic(auto, unfolding(crate::specs::Line::judged, basics::specs::Choice::pick))]
fn judge(s: &[u8]) -> Fate
    ensures { result ≡ judged s.now }
{
    match s.len() {
        0..=6 => opening_fate(s),
        7..=9 => address_fate(s),
        _ => data_fate(s),
    }
}

// Are these the bytes of a command under way?
#[tactic(auto, unfolding(crate::specs::Line::is_open))]
fn is_open(s: &[u8]) -> bool
    ensures { result ≡ is_open s.now }
{
    let n = s.len();
    (n < 2 || pair_right(s))
        && (n < 6 || opcode_right(s))
        && (n < 8 || address_right(s))
        && (n < 9 || address_checked(s) && is_write(s))
        && (n < 11 || size_right(s))
        && n < 12 + number_at(s, 9)
}

// Kept: every byte is looked at, where `all` leaves at the first that is not 0: with `all` a byte on the line takes 1.96 times plain C's time, and with this 1.05.
fn all_zero(s: &[u8]) -> bool
    ensures { result ≡ all_zero s.now }
{
    s.iter().fold(0, |any, b| any | b) == 0
}

// The bytes of the command that a reader holds.
fn received(reader: &Reader) -> &[u8]
    requires { byte_at reader.now 0 ≤ 77 }
    ensures { result.now ≡ received_in reader.now }
{
    &reader[1..=reader[0] as usize]
}

// Are these bytes a reader's? One that has all its command's bytes does not exist, so 76 are the most.
#[tactic(auto, unfolding(crate::specs::InPlace::is_reader, basics::specs::Choice::pick))]
fn is_reader(reader: &Reader) -> bool
    ensures { result ≡ is_reader reader.now }
{
    let n = reader[0] as usize;
    n <= 76 && is_open(received(reader)) && all_zero(&reader[n + 1..])
}

// A NEW READER; another length is refused and stays as it is.
#[tactic(auto, unfolding(crate::specs::InPlace::fresh_in_place, crate::specs::InPlace::reader_bytes, basics::specs::Words::zeros, basics::specs::Choice::pick))]
pub fn fresh(reader: &mut [u8]) -> Result<(), Unheard>
    ensures { fresh_placed result reader.new ≡ fresh_in_place reader.old }
{
    let Some(reader) = reader.as_mut_array::<{ LENGTH }>() else {
        return Err(Unheard::NoReader);
    };
    reader.fill(0);
    Ok(())
}

// What GET_STATE would next reply, with no effect of it.
#[tactic(auto, unfolding(crate::specs::Responses::peek, device::specs::Layout::head_in, basics::specs::Choice::pick))]
fn look_ahead(rec: &Record) -> Peek
    ensures { result ≡ peek (head_in rec.now) }
{
    let (state, error) = match (fields::mode(rec), fields::byte(rec, places::ERROR)) {
        (Mode::Stack, _) => (0xFF, 0xFE),
        (Mode::Upgrade { .. } | Mode::Delete { .. }, _) => (0x10, 0x00),
        (Mode::Idle, 0) => (0x00, 0x00),
        (Mode::Idle, error) => (0xFF, error),
    };
    Peek { state, error }
}

// Sends a message: it stands in `out`, with zeros behind it.
fn send(out: &mut [u8], message: &[u8], reason: Option<Reason>) -> Sent
    requires { length message.now ≤ 10 }
    ensures value { result ≡ sending message.now reason }
    ensures out_after { out.new ≡ replied 10 (length out.old) message.now }
{
    reply::put(out, 10, message);
    Sent {
        count: message.len() as u8,
        reason,
    }
}

// Sends the ACK of the last packet and the response.
#[tactic(auto, unfolding(crate::specs::Responses::response, basics::specs::Choice::pick))]
fn respond(
    out: &mut [u8],
    command: Command,
    status: u8,
    payload: u8,
    next: Peek,
    reason: Option<Reason>,
) -> Sent
    ensures value { result ≡ sending (ack ∷ response command status payload next) reason }
    ensures out_after { out.new ≡ replied 10 (length out.old) (ack ∷ response command status payload next) }
{
    let Peek { state, error } = next;
    if command == Command::GetState {
        return send(out, &[ACK, 0, 3, 0, status, payload, 0, 1, 0, ACK], reason);
    }
    if status == 1 {
        return send(out, &[ACK, 0, 3, 1, state, error, ACK], reason);
    }
    if command == Command::StoreUsrKey {
        return send(out, &[ACK, 0, 3, 0, state, payload, ACK], reason);
    }
    send(out, &[ACK, 0, 1, 0, ACK], reason)
}

// The packet of a whole command, made where its data stand.
// Kept: `Filled` is a clause of three functions and no type: the bytes are no reader's any more once the packet is made in them.
fn make_packet(reader: &mut Reader, command: Command) -> &[u8]
    requires filled { Filled reader.old }
    requires reader_value { judged (received_in reader.old) ≡ Fate.Whole command }
    ensures { result.now ≡ packet_in command (received_in reader.old) }
{
    let size = reader[11];
    let [low, high] = u16::from(command).to_le_bytes();
    reader[8..12].copy_from_slice(&[0x10, low, high, size]);
    let end = 12 + size as usize;
    &reader[8..end]
}

// A whole command: its packet is handled, with a reply buffer of its own, and the reader is new.
fn whole(
    rec: &mut [u8],
    flash: &mut [u8],
    reader: &mut Reader,
    command: Command,
    out: &mut [u8],
) -> Sent
    requires filled { Filled reader.old }
    requires reader_value { judged (received_in reader.old) ≡ Fate.Whole command }
    ensures { placed taken rec.new flash.new reader.new out.new result.count (told result.reason) ≡ placed_by (after_handle command (handled_on first command (received_in reader.old) rec.old flash.old)) out.old }
{
    let mut reply = [0; 8];
    let handled = services::handle(rec, flash, make_packet(reader, command), &mut reply);
    reader.fill(0);
    let Ok(reason) = handled else {
        return send(out, &[ACK, NACK], None);
    };
    // handle takes a packet only on a record of its length
    let next = look_ahead(rec.as_array().unwrap());
    respond(out, command, reply[6], reply[7], next, reason)
}

// The bytes received, the newest among them.
fn hear(rec: &mut [u8], flash: &mut [u8], reader: &mut Reader, out: &mut [u8]) -> Sent
    requires { Filled reader.old }
    ensures { placed taken rec.new flash.new reader.new out.new result.count (told result.reason) ≡ placed_by (heard first (received_in reader.old) rec.old flash.old) out.old }
{
    match judge(received(reader)) {
        Fate::More => send(out, &[], None),
        Fate::Right => send(out, &[ACK], None),
        Fate::Whole(command) => whole(rec, flash, reader, command, out),
        Fate::Wrong => {
            reader.fill(0);
            send(out, &[NACK], None)
        }
    }
}

// A byte joins those received.
fn take_in(reader: &mut Reader, byte: u8)
    requires { is_reader reader.old ≡ true }
    ensures { reader.new ≡ reader_bytes (received_in reader.old ++ (byte ∷ [])) }
{
    let n = reader[0];
    reader[n as usize + 1] = byte;
    reader[0] = n + 1;
}

// A refused call fills the buffer for what is sent with zeros.
fn refuse(out: &mut [u8], unheard: Unheard) -> Result<Sent, Unheard>
    ensures value { result ≡ Err unheard }
    ensures out_after { out.new ≡ zeros (length out.old) }
{
    reply::clear(out);
    Err(unheard)
}

// A BYTE on the line: what is sent stands in `out`, with zeros behind it.
pub fn byte(
    rec: &mut [u8],
    flash: &mut [u8],
    reader: &mut [u8],
    byte: u8,
    out: &mut [u8],
) -> Result<Sent, Unheard>
    ensures { placed (heard_of result) rec.new flash.new reader.new out.new (sent_told result) (reason_told result) ≡ stepped_in_place first rec.old flash.old reader.old byte out.old }
{
    if out.len() < 10 {
        return refuse(out, Unheard::OutShort);
    }
    let Some(reader) = reader.as_mut_array() else {
        return refuse(out, Unheard::NoReader);
    };
    if !is_reader(reader) {
        return refuse(out, Unheard::NoReader);
    }
    take_in(reader, byte);
    Ok(hear(rec, flash, reader, out))
}
