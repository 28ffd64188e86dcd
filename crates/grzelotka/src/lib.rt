// The calls as the C test host has them (include/grzelotka.h): each is the record's call with its answer as a number.
// Kept: numbers for answers, refusals and reasons, and what else is told by `&mut`: C has no Result and no Option.
#![tactic(auto)]

ghost use Rattle.std.specs.Prelude.{◌≡◌, Err, not, eqb, length};
ghost use Rattle.packet.specs.Packets.{read_of};
ghost use Rattle.answer.specs.Answers.{told};
ghost use Rattle.reply.specs.Message.{next_message};
ghost use Rattle.services.specs.Calls.{first, verdict_of};
ghost use Rattle.device.specs.Layout.{record_length};
ghost use Rattle.services.specs.InPlace.{fresh_in_place, handled_in_place, restarted_in_place, worked_in_place, cut_in_place};
ghost use Rattle.serial.specs.InPlace.{reader_length, fresh_in_place as serialFresh, stepped_in_place};
ghost use Rattle.grzelotka.specs.Numbers.{number_for, read_number, read_opcode, read_length, heard_number};

use answer::Reason;
use packet::Refusal;
use serial::{Sent, Unheard};

// 0 for a call that is taken, else the refusal's number.
fn number_for<T: Copy>(outcome: Result<T, Refusal>) -> u8
    ensures { result ≡ number_for (verdict_of outcome) }
{
    match outcome {
        Ok(_) => 0,
        Err(refusal) => u8::from(refusal),
    }
}

// Why a key was turned down, as a number: 0 for no reason.
fn reason_number(reason: Option<Reason>) -> u8
    ensures { result ≡ told reason }
{
    reason.map_or(0, u8::from)
}

#[unsafe(no_mangle)]
pub extern "C" fn grzelotka_record_bytes() -> usize
    ensures { result ≡ record_length }
{
    device::places::LENGTH
}

#[unsafe(no_mangle)]
pub extern "C" fn grzelotka_fresh(rec: &mut [u8]) -> u8
    ensures value { result ≡ number_for (fresh_in_place rec.old).verdict }
    ensures rec_after { rec.new ≡ (fresh_in_place rec.old).bytes }
{
    number_for(services::fresh(rec))
}

// The opcode and the payload's length of a lawful packet; 0 and 0 of a refused one.
#[unsafe(no_mangle)]
pub extern "C" fn grzelotka_read(packet: &[u8], opcode: &mut u16, payload: &mut u8) -> u8
    ensures value { result ≡ read_number (read_of packet.now) }
    ensures opcode_after { opcode.new ≡ read_opcode (read_of packet.now) }
    ensures payload_after { payload.new ≡ read_length (read_of packet.now) }
{
    match packet::read(packet) {
        Ok(request) => {
            *opcode = u16::from(request.command);
            *payload = request.length;
            0
        }
        Err(refusal) => {
            *opcode = 0;
            *payload = 0;
            u8::from(refusal)
        }
    }
}

#[unsafe(no_mangle)]
pub extern "C" fn grzelotka_handle(
    rec: &mut [u8],
    flash: &mut [u8],
    packet: &[u8],
    reply: &mut [u8],
) -> u8
    ensures value { result ≡ number_for (handled_in_place first rec.old flash.old packet.now reply.old).verdict }
    ensures rec_after { rec.new ≡ (handled_in_place first rec.old flash.old packet.now reply.old).bytes }
    ensures flash_after { flash.new ≡ (handled_in_place first rec.old flash.old packet.now reply.old).flash }
    ensures reply_after { reply.new ≡ (handled_in_place first rec.old flash.old packet.now reply.old).reply }
{
    number_for(services::handle(rec, flash, packet, reply))
}

// The same, and beside the reply why a key was turned down: 0 for no reason.
#[unsafe(no_mangle)]
pub extern "C" fn grzelotka_handle_why(
    rec: &mut [u8],
    flash: &mut [u8],
    packet: &[u8],
    reply: &mut [u8],
    reason: &mut u8,
) -> u8
    ensures value { result ≡ number_for (handled_in_place first rec.old flash.old packet.now reply.old).verdict }
    ensures rec_after { rec.new ≡ (handled_in_place first rec.old flash.old packet.now reply.old).bytes }
    ensures flash_after { flash.new ≡ (handled_in_place first rec.old flash.old packet.now reply.old).flash }
    ensures reply_after { reply.new ≡ (handled_in_place first rec.old flash.old packet.now reply.old).reply }
    ensures reason_after { reason.new ≡ (handled_in_place first rec.old flash.old packet.now reply.old).reason }
{
    let outcome = services::handle(rec, flash, packet, reply);
    *reason = reason_number(outcome.unwrap_or(None));
    number_for(outcome)
}

#[unsafe(no_mangle)]
pub extern "C" fn grzelotka_restart(rec: &mut [u8], event: &mut [u8]) -> u8
    ensures value { result ≡ number_for (restarted_in_place first rec.old event.old).verdict }
    ensures rec_after { rec.new ≡ (restarted_in_place first rec.old event.old).bytes }
    ensures event_after { event.new ≡ (restarted_in_place first rec.old event.old).reply }
{
    number_for(services::restart(rec, event))
}

#[unsafe(no_mangle)]
pub extern "C" fn grzelotka_work(rec: &mut [u8], flash: &mut [u8], left: &mut u32) -> u8
    ensures value { result ≡ number_for (worked_in_place first rec.old flash.old).verdict }
    ensures rec_after { rec.new ≡ (worked_in_place first rec.old flash.old).bytes }
    ensures flash_after { flash.new ≡ (worked_in_place first rec.old flash.old).flash }
    ensures left_after { left.new ≡ (worked_in_place first rec.old flash.old).left }
{
    let outcome = services::work(rec, flash);
    *left = outcome.unwrap_or(0);
    number_for(outcome)
}

// Any nonzero `through` lets a record store go through.
#[unsafe(no_mangle)]
pub extern "C" fn grzelotka_cut(
    rec: &mut [u8],
    flash: &mut [u8],
    filler: &[u8],
    through: u8,
    event: &mut [u8],
) -> u8
    ensures value { result ≡ number_for (cut_in_place first rec.old flash.old filler.now (not (eqb through 0)) event.old).verdict }
    ensures rec_after { rec.new ≡ (cut_in_place first rec.old flash.old filler.now (not (eqb through 0)) event.old).bytes }
    ensures flash_after { flash.new ≡ (cut_in_place first rec.old flash.old filler.now (not (eqb through 0)) event.old).flash }
    ensures event_after { event.new ≡ (cut_in_place first rec.old flash.old filler.now (not (eqb through 0)) event.old).reply }
{
    number_for(services::cut(rec, flash, filler, through != 0, event))
}

// How long the next message is: 0, 6 (the event), 7 or 8.
#[unsafe(no_mangle)]
pub extern "C" fn grzelotka_next_message<'a>(event: &'a [u8], response: &'a [u8]) -> usize
    ensures { result ≡ length (next_message event.now response.now) }
{
    reply::next_message(event, response).len()
}

// Why the line takes no byte: 3 as every short buffer, 19 for bytes that are no reader's.
fn unheard_number(unheard: Unheard) -> u8
    ensures { result ≡ heard_number (Err unheard) }
{
    match unheard {
        Unheard::OutShort => 3,
        Unheard::NoReader => 19,
    }
}

#[unsafe(no_mangle)]
pub extern "C" fn grzelotka_serial_bytes() -> usize
    ensures { result ≡ reader_length }
{
    serial::LENGTH
}

#[unsafe(no_mangle)]
pub extern "C" fn grzelotka_serial_fresh(reader: &mut [u8]) -> u8
    ensures value { result ≡ heard_number (serialFresh reader.old).answer }
    ensures reader_after { reader.new ≡ (serialFresh reader.old).reader }
{
    serial::fresh(reader).map_or_else(unheard_number, |()| 0)
}

#[unsafe(no_mangle)]
pub extern "C" fn grzelotka_serial(
    rec: &mut [u8],
    flash: &mut [u8],
    reader: &mut [u8],
    byte: u8,
    out: &mut [u8],
    sent: &mut u8,
    reason: &mut u8,
) -> u8
    ensures value { result ≡ heard_number (stepped_in_place first rec.old flash.old reader.old byte out.old).answer }
    ensures rec_after { rec.new ≡ (stepped_in_place first rec.old flash.old reader.old byte out.old).bytes }
    ensures flash_after { flash.new ≡ (stepped_in_place first rec.old flash.old reader.old byte out.old).flash }
    ensures reader_after { reader.new ≡ (stepped_in_place first rec.old flash.old reader.old byte out.old).reader }
    ensures out_after { out.new ≡ (stepped_in_place first rec.old flash.old reader.old byte out.old).out }
    ensures sent_after { sent.new ≡ (stepped_in_place first rec.old flash.old reader.old byte out.old).sent }
    ensures reason_after { reason.new ≡ (stepped_in_place first rec.old flash.old reader.old byte out.old).reason }
{
    match serial::byte(rec, flash, reader, byte, out) {
        Ok(Sent { count, reason: why }) => {
            *sent = count;
            *reason = reason_number(why);
            0
        }
        Err(unheard) => {
            *sent = 0;
            *reason = 0;
            unheard_number(unheard)
        }
    }
}
