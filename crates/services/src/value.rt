// The calls by value: each is the call in place on the device's bytes.
ghost use Rattle.std.specs.Prelude.{◌≡◌};
ghost use Rattle.services.specs.Calls.{first, verdict_of, reason_told, left_told};
ghost use Rattle.services.specs.InPlace.{handle_placed, restart_placed, work_placed, cut_placed, handled_in_place, restarted_in_place, worked_in_place, cut_in_place};

use answer::Reason;
use device::Device;
use packet::Refusal;

// What a call by value gives back: the device after it, and its answer.
#[derive(Clone, Copy)]
pub struct After<T> {
    pub device: Device,
    pub answer: Result<T, Refusal>,
}

pub fn handle(d: Device, flash: &mut [u8], packet: &[u8], reply: &mut [u8]) -> After<Option<Reason>>
    ensures { handle_placed (verdict_of result.answer) result.device.bytes flash.new reply.new (reason_told result.answer) ≡ handled_in_place first d.bytes flash.old packet.now reply.old }
{
    let mut device = d;
    let answer = crate::handle(&mut device.bytes, flash, packet, reply);
    After { device, answer }
}

pub fn restart(d: Device, event: &mut [u8]) -> After<()>
    ensures { restart_placed result.answer result.device.bytes event.new ≡ restarted_in_place first d.bytes event.old }
{
    let mut device = d;
    let answer = crate::restart(&mut device.bytes, event);
    After { device, answer }
}

pub fn work(d: Device, flash: &mut [u8]) -> After<u32>
    ensures { work_placed (verdict_of result.answer) result.device.bytes flash.new (left_told result.answer) ≡ worked_in_place first d.bytes flash.old }
{
    let mut device = d;
    let answer = crate::work(&mut device.bytes, flash);
    After { device, answer }
}

pub fn cut(d: Device, flash: &mut [u8], filler: &[u8], through: bool, event: &mut [u8]) -> After<()>
    ensures { cut_placed result.answer result.device.bytes flash.new event.new ≡ cut_in_place first d.bytes flash.old filler.now through event.old }
{
    let mut device = d;
    let answer = crate::cut(&mut device.bytes, flash, filler, through, event);
    After { device, answer }
}
