// The calls on a record's bytes, in place: fresh device, handle a packet, restart, work (one store), cut. `value` has them by value.
// Kept: the lent buffers are parameters and no struct: C lends each by itself, and `handle_placed` and its like speak of each after the call.
#![tactic(auto, unfolding(basics::specs::Choice::pick, crate::specs::Calls::gated, crate::specs::InPlace::fresh_in_place, device::specs::Layout::decode, device::specs::Layout::head_in))]

pub mod value;

ghost use Rattle.std.specs.Prelude.{◌≡◌, true, ◌*◌, ◌≤◌, leb, length, Err};
ghost use Rattle.basics.specs.Words.{zeros};
ghost use Rattle.packet.specs.Packets.{read_of};
ghost use Rattle.answer.specs.Answers.{told};
ghost use Rattle.device.specs.Types as Types;
ghost use Rattle.device.specs.Modes.{has_job};
ghost use Rattle.device.specs.Layout.{encode, decode};
ghost use Rattle.device.specs.Fields.{Held, Loses};
ghost use Rattle.services.specs.Calls.{numbers_of, first, granted, verdict_of, reason_told, left_told, gated, admitted, lent, Taking, checked_for, key_in, reply_to, event_for, answered, worked_on, cut_in};
ghost use Rattle.services.specs.InPlace.{handle_placed, restart_placed, work_placed, cut_placed, fresh_placed, handle_in_bytes, work_in_bytes, cut_in_bytes, sound_for, fresh_in_place, handled_in_place, restarted_in_place, worked_in_place, cut_in_place};

use answer::{Answer, Checked, Failure, Reason};
use device::{Board, Record, fields, places};
use image::Terms;
use packet::{Command, Refusal, Request};

// Refusals 1, 2, 3 and 10, the lowest first: is the record sound, has the flash its length, does the reply fit, has the filler its length? A
// call that does not use a number gives true for it.
fn gate(sound: bool, lent: bool, fits: bool, filled: bool) -> Result<(), Refusal>
    ensures { result ≡ gated sound lent fits filled }
{
    if !sound {
        return Err(Refusal::UnsoundRecord);
    }
    if !lent {
        return Err(Refusal::FlashLength);
    }
    if !fits {
        return Err(Refusal::ReplyShort);
    }
    if !filled {
        return Err(Refusal::FillerLength);
    }
    Ok(())
}

// Has the flash its length?
fn is_lent(board: Board, flash: &[u8]) -> bool
    ensures { result ≡ lent (numbers_of board) flash.now }
{
    flash.len() == board.count * board.size
}

// A refused call fills its reply buffer with zeros.
fn refuse<T>(reply: &mut [u8], refusal: Refusal) -> Result<T, Refusal>
    ensures value { result ≡ Err refusal }
    ensures reply_after { reply.new ≡ zeros (length reply.old) }
{
    reply::clear(reply);
    Err(refusal)
}

// A FRESH DEVICE's bytes; a record of another length is refused and stays as it is.
pub fn fresh(rec: &mut [u8]) -> Result<(), Refusal>
    ensures { fresh_placed result rec.new ≡ fresh_in_place rec.old }
{
    let Some(record) = rec.as_mut_array() else {
        return Err(Refusal::UnsoundRecord);
    };
    fields::set_fresh(record);
    Ok(())
}

// The key bytes of a packet.
fn key_in(command: Command, packet: &[u8]) -> &[u8]
    ensures { result.now ≡ key_in command packet.now }
{
    // behind its size; a user key's type stands before that
    let at = match command {
        Command::UpdateAuthKey => 5,
        _ => 6,
    };
    if at <= packet.len() {
        &packet[at..]
    } else {
        &[]
    }
}

// The checks, where an image is looked for at all.
fn look_for(board: Board, rec: &Record, command: Command, flash: &[u8]) -> Checked
    requires { ((decode rec.now).head.boundary ≤ board.top) × (length flash.now ≡ board.count * board.size) }
    ensures { result ≡ checked_for (numbers_of board) (decode rec.now).head command (decode rec.now).key flash.now }
{
    if !decisions::searches(rec, command) {
        return Checked::Fails(Failure::NoImage);
    }
    let terms = Terms {
        boundary: fields::word(rec, places::BOUNDARY) as usize,
        auth: fields::flag(rec, places::AUTH),
        rollback: fields::flag(rec, places::ROLLBACK),
        floor: fields::word(rec, places::FLOOR),
    };
    image::check(flash, board.size, terms, fields::auth_key(rec))
}

// The response to a command, written.
fn respond(reply: &mut [u8], command: Command, answer: Answer)
    ensures { reply.new ≡ reply_to command answer (length reply.old) }
{
    reply::write_response(reply, command, answer.status(), answer.payload());
}

// The lawful command of a packet, answered; and why a key was turned down.
fn answer_to(
    board: Board,
    rec: &mut Record,
    flash: &mut [u8],
    packet: &[u8],
    reply: &mut [u8],
    command: Command,
) -> Option<Reason>
    requires held { Held rec.old }
    requires taking { Taking (numbers_of board) (decode rec.old) flash.old packet.now reply.old command }
    ensures { handle_placed granted rec.new flash.new reply.new (told result) ≡ handle_in_bytes (answered (numbers_of board) (decode rec.old) flash.old packet.now reply.old command) }
{
    let checked = look_for(board, rec, command, flash);
    let first = basics::byte_at(packet, 4);
    let answer = decisions::command(rec, checked, command, first, key_in(command, packet));
    image::clear_after(flash, board.size, checked);
    respond(reply, command, answer);
    answer.reason()
}

// The packet, read where the gate is open.
fn admit(
    board: Board,
    rec: &Record,
    flash: &[u8],
    packet: &[u8],
    reply: &[u8],
) -> Result<Request, Refusal>
    ensures { result ≡ admitted (gated (sound_for (numbers_of board) rec.now) (lent (numbers_of board) flash.now) (leb 8 (length reply.now)) true) (read_of packet.now) }
{
    let sound = soundness::is_sound(rec, board.size, board.top);
    gate(sound, is_lent(board, flash), 8 <= reply.len(), true)?;
    packet::read(packet)
}

// Handles a packet on the record of a device of any kind.
fn handle_as(
    board: Board,
    rec: &mut [u8],
    flash: &mut [u8],
    packet: &[u8],
    reply: &mut [u8],
) -> Result<Option<Reason>, Refusal>
    ensures { handle_placed (verdict_of result) rec.new flash.new reply.new (reason_told result) ≡ handled_in_place (numbers_of board) rec.old flash.old packet.now reply.old }
{
    let Some(rec) = rec.as_mut_array() else {
        return refuse(reply, Refusal::UnsoundRecord);
    };
    match admit(board, rec, flash, packet, reply) {
        Ok(request) => Ok(answer_to(board, rec, flash, packet, reply, request.command)),
        Err(refusal) => refuse(reply, refusal),
    }
}

// HANDLE A PACKET; and beside the reply why a key was turned down.
pub fn handle(
    rec: &mut [u8],
    flash: &mut [u8],
    packet: &[u8],
    reply: &mut [u8],
) -> Result<Option<Reason>, Refusal>
    ensures { handle_placed (verdict_of result) rec.new flash.new reply.new (reason_told result) ≡ handled_in_place first rec.old flash.old packet.now reply.old }
{
    handle_as(Board::first(), rec, flash, packet, reply)
}

// The device starts: the event tells which program runs, and what is lost is lost.
fn start(rec: &mut Record, event: &mut [u8])
    ensures loses { Loses rec.old rec.new }
    ensures event_after { (d : Types.Device) → rec.old ≡ encode d → event.new ≡ event_for d (length event.old) }
{
    reply::write_event(event, fields::mode(rec).stack_runs());
    fields::lose(rec);
}

// Restarts the record of a device of any kind.
fn restart_as(board: Board, rec: &mut [u8], event: &mut [u8]) -> Result<(), Refusal>
    ensures { restart_placed result rec.new event.new ≡ restarted_in_place (numbers_of board) rec.old event.old }
{
    let Some(rec) = rec.as_mut_array() else {
        return refuse(event, Refusal::UnsoundRecord);
    };
    match gate(
        soundness::is_sound(rec, board.size, board.top),
        true,
        6 <= event.len(),
        true,
    ) {
        Ok(()) => {
            start(rec, event);
            Ok(())
        }
        Err(refusal) => refuse(event, refusal),
    }
}

// RESTART: the power comes back, and the event tells which program runs.
pub fn restart(rec: &mut [u8], event: &mut [u8]) -> Result<(), Refusal>
    ensures { restart_placed result rec.new event.new ≡ restarted_in_place first rec.old event.old }
{
    restart_as(Board::first(), rec, event)
}

// One store of a job, and how many are still to do after it. The record is stored before the flash, which is faster.
fn work_on(board: Board, rec: &mut Record, flash: &mut [u8]) -> u32
    requires fitting { (sound_for (numbers_of board) rec.old ≡ true) × (length flash.old ≡ board.count * board.size) }
    requires job { has_job (decode rec.old).head.mode ≡ true }
    ensures { work_placed granted rec.new flash.new result ≡ work_in_bytes (worked_on (numbers_of board) (decode rec.old) flash.old) }
{
    let store = jobs::next(rec, board);
    let left = jobs::advance(rec, board, store) as u32;
    jobs::stores::make(flash, board, store);
    left
}

// Works on the record of a device of any kind.
fn work_as(board: Board, rec: &mut [u8], flash: &mut [u8]) -> Result<u32, Refusal>
    ensures { work_placed (verdict_of result) rec.new flash.new (left_told result) ≡ worked_in_place (numbers_of board) rec.old flash.old }
{
    let Some(rec) = rec.as_mut_array() else {
        return Err(Refusal::UnsoundRecord);
    };
    gate(
        soundness::is_sound(rec, board.size, board.top),
        is_lent(board, flash),
        true,
        true,
    )?;
    if fields::mode(rec).has_job() {
        Ok(work_on(board, rec, flash))
    } else {
        Ok(0)
    }
}

// WORK: one store, and how many are still to do after it.
pub fn work(rec: &mut [u8], flash: &mut [u8]) -> Result<u32, Refusal>
    ensures { work_placed (verdict_of result) rec.new flash.new (left_told result) ≡ worked_in_place first rec.old flash.old }
{
    work_as(Board::first(), rec, flash)
}

// The next store of a job is cut, and a restart follows.
fn cut_on(
    board: Board,
    rec: &mut Record,
    flash: &mut [u8],
    filler: &[u8],
    through: bool,
    event: &mut [u8],
)
    requires fitting { (sound_for (numbers_of board) rec.old ≡ true) × (length flash.old ≡ board.count * board.size) }
    requires job { (has_job (decode rec.old).head.mode ≡ true) × (length filler.now ≡ board.size) }
    ensures { cut_placed granted rec.new flash.new event.new ≡ cut_in_bytes (cut_in (numbers_of board) (decode rec.old) flash.old filler.now through event.old) }
{
    let store = jobs::next(rec, board);
    jobs::break_off(rec, board, store, through);
    jobs::stores::cut(flash, board, store, filler);
    start(rec, event);
}

// Cuts the power of the record of a device of any kind.
fn cut_as(
    board: Board,
    rec: &mut [u8],
    flash: &mut [u8],
    filler: &[u8],
    through: bool,
    event: &mut [u8],
) -> Result<(), Refusal>
    ensures { cut_placed result rec.new flash.new event.new ≡ cut_in_place (numbers_of board) rec.old flash.old filler.now through event.old }
{
    let Some(rec) = rec.as_mut_array() else {
        return refuse(event, Refusal::UnsoundRecord);
    };
    let sound = soundness::is_sound(rec, board.size, board.top);
    let filled = filler.len() == board.size;
    match gate(sound, is_lent(board, flash), 6 <= event.len(), filled) {
        Ok(()) => {
            if fields::mode(rec).has_job() {
                cut_on(board, rec, flash, filler, through, event);
            } else {
                start(rec, event);
            }
            Ok(())
        }
        Err(refusal) => refuse(event, refusal),
    }
}

// CUT: the power goes during the next store, and comes back.
pub fn cut(
    rec: &mut [u8],
    flash: &mut [u8],
    filler: &[u8],
    through: bool,
    event: &mut [u8],
) -> Result<(), Refusal>
    ensures { cut_placed result rec.new flash.new event.new ≡ cut_in_place first rec.old flash.old filler.now through event.old }
{
    cut_as(Board::first(), rec, flash, filler, through, event)
}
