// The device that a script is played on, and the orders to it.
use crate::flash::{self, FLASH};
use crate::replies::{Answer, Reply};
use device::{Device, Record, fields};
use script::Order;
use serial::Sent;
use std::io::{Cursor, Write};
use std::rt::Files;

// The most bytes of a packet, and of what is sent for as many bytes on the serial line.
const PACKET: usize = 260;

const SENT: usize = 10 * PACKET;

// The device's record and its flash, and what reads its serial line.
#[derive(Drop)]
pub struct Bench {
    rec: Record,
    flash: [u8; FLASH],
    reader: [u8; serial::LENGTH],
    // what the device sent on the serial line last
    sent: [u8; SENT],
}

impl Bench {
    // A fresh device.
    pub fn new() -> Bench {
        let Device { bytes } = Device::fresh();
        Bench {
            rec: bytes,
            flash: [0xFF; FLASH],
            reader: [0; serial::LENGTH],
            sent: [0; SENT],
        }
    }

    // Answers a line.
    pub fn answer(&mut self, rt: &impl Files, line: &[u8]) -> Answer<'_> {
        match script::read(line)? {
            Order::Nothing => Ok(Reply::Done),
            Order::Packet { digits } => self.packet(digits),
            Order::Serial { digits } => self.serial(digits),
            Order::Restart => self.restart(),
            Order::Work { stores } => self.work(stores),
            Order::Cut { filler, through } => self.cut(filler, through),
            Order::Load { sector, name } => flash::load(rt, &mut self.flash, sector, name),
            Order::Dump { sector } => Ok(Reply::Bytes(flash::sector(&self.flash, sector))),
            Order::Map => Ok(Reply::Map(&self.flash)),
            Order::Record => Ok(Reply::Bytes(&self.rec)),
            Order::State => Ok(Reply::State(fields::read_head(&self.rec))),
            Order::Erase { sector } => self.fill(sector, 0xFF),
            Order::Fill { sector, byte } => self.fill(sector, byte),
            Order::Fresh => self.fresh(),
        }
    }

    // A packet to the device.
    fn packet(&mut self, digits: &[u8]) -> Answer<'_> {
        let mut room = [0; PACKET];
        let n = script::packet_bytes(digits, &mut room);
        let mut response = [0; 8];
        let reason = services::handle(&mut self.rec, &mut self.flash, &room[..n], &mut response)?;
        Ok(Reply::Response { response, reason })
    }

    // Bytes on the serial line, one after another: all that the device sends, and why a key was turned down last. (The line refuses none of them:
    // its reader is sound, and 10 bytes are room for what one byte has sent.)
    fn serial(&mut self, digits: &[u8]) -> Answer<'_> {
        let mut room = [0; PACKET];
        let mut sent = Cursor::new(self.sent.as_mut_slice());
        let mut last = None;
        let n = script::packet_bytes(digits, &mut room);
        for byte in &room[..n] {
            let mut out = [0; 10];
            if let Ok(Sent { count, reason }) = serial::byte(
                &mut self.rec,
                &mut self.flash,
                &mut self.reader,
                *byte,
                &mut out,
            ) {
                let _ = sent.write_all(out.get(..count as usize).unwrap_or(&[]));
                last = reason.or(last);
            }
        }
        let end = sent.position() as usize;
        Ok(Reply::Sent {
            bytes: self.sent.get(..end).unwrap_or(&[]),
            reason: last,
        })
    }

    fn restart(&mut self) -> Answer<'_> {
        let mut event = [0; 6];
        services::restart(&mut self.rec, &mut event)?;
        Ok(Reply::Event(event))
    }

    // The power is cut in the next store.
    fn cut(&mut self, filler: u8, through: bool) -> Answer<'_> {
        let filler = [filler; Device::SECTOR_SIZE];
        let mut event = [0; 6];
        services::cut(&mut self.rec, &mut self.flash, &filler, through, &mut event)?;
        Ok(Reply::Event(event))
    }

    // Up to `stores` stores, while one is left; a job has at least one. (Work is not refused here: the record stays sound, and the flash has its
    // length.)
    fn work(&mut self, stores: usize) -> Answer<'_> {
        let mut left = fields::mode(&self.rec).has_job() as u32;
        for made in 0..stores {
            if left == 0 {
                return Ok(Reply::Made { made, left });
            }
            left = services::work(&mut self.rec, &mut self.flash).unwrap_or(0);
        }
        Ok(Reply::Made { made: stores, left })
    }

    // The device, the flash and the line as at the start.
    fn fresh(&mut self) -> Answer<'_> {
        services::fresh(&mut self.rec)?;
        self.flash.fill(0xFF);
        let _ = serial::fresh(&mut self.reader);
        Ok(Reply::Done)
    }

    fn fill(&mut self, sector: usize, byte: u8) -> Answer<'_> {
        flash::fill(&mut self.flash, sector, byte);
        Ok(Reply::Done)
    }
}
