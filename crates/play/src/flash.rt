// What the bench does to the flash by itself: it looks at it, fills it, loads files into it.
use crate::replies::{Answer, Reply, Trouble};
use device::Device;
use std::rt::Files;

// How many bytes the flash has.
pub const FLASH: usize = Device::SECTOR_COUNT * Device::SECTOR_SIZE;

// A sector of the flash; past the last one, nothing.
pub fn sector(flash: &[u8], t: usize) -> &[u8] {
    flash
        .chunks_exact(Device::SECTOR_SIZE)
        .nth(t)
        .unwrap_or(&[])
}

// The character of a sector in a map: an image is looked for in this one sector.
pub fn character(sector: &[u8]) -> char {
    if sector.iter().all(|byte| *byte == 0xFF) {
        '.'
    } else if 5 <= sector.len() && image::find_image(sector, sector.len(), 1).is_some() {
        'i'
    } else {
        '#'
    }
}

// Fills a sector.
pub fn fill(flash: &mut [u8], t: usize, byte: u8) {
    if let Some(sector) = flash.chunks_exact_mut(Device::SECTOR_SIZE).nth(t) {
        sector.fill(byte);
    }
}

// The bytes of a file go into flash from a sector's first byte on, if they fit.
fn put<'a>(flash: &mut [u8], t: usize, bytes: &[u8]) -> Answer<'a> {
    if bytes.is_empty() {
        return Err(Trouble::FileEmpty);
    }
    let at = t.saturating_mul(Device::SECTOR_SIZE);
    let place = flash
        .get_mut(at..)
        .and_then(|rest| rest.get_mut(..bytes.len()))
        .ok_or(Trouble::FileTooLong)?;
    place.copy_from_slice(bytes);
    Ok(Reply::Loaded {
        count: bytes.len(),
        from: t,
        to: t + (bytes.len() - 1) / Device::SECTOR_SIZE,
    })
}

// Room for a file. (Apart from `load`, whose check would run out of memory over so long a literal.)
// Kept: the program `cases` has a function like this, and one like `Hex` that prints small letters; a crate for the few lines of two programs is no plainer.
fn room() -> [u8; FLASH] {
    [0; FLASH]
}

// Loads the file with this name, which is read to its end before a byte of flash is changed.
pub fn load<'a>(rt: &impl Files, flash: &mut [u8], t: usize, name: &[u8]) -> Answer<'a> {
    let mut file = loading::open(rt, name).map_err(|_| Trouble::FileClosed)?;
    let mut room = room();
    let bytes = loading::read(&mut file, &mut room)
        .map_err(|_| Trouble::FileUnread)?
        .ok_or(Trouble::FileTooLong)?;
    put(flash, t, bytes)
}
