// What is said of an image that was made.
use device::Device;
use image::Header;
use std::fmt;

#[derive(Clone, Copy)]
pub struct Report(pub Header);

impl fmt::Display for Report {
    fn fmt<W: fmt::Write>(&self, f: &mut fmt::Formatter<W>) -> fmt::Result {
        let Header {
            size,
            version,
            sum,
            seal,
            tag,
            ..
        } = self.0;
        let sectors = sectors::sectors_for(size, Device::SECTOR_SIZE);
        let plural = if sectors == 1 { "" } else { "s" };
        // Kept: compared as the bytes that a header has (see `image::Header`).
        let sealed = if seal == 1 { "sealed" } else { "unsealed" };
        let tagged = if tag == 1 { "tagged" } else { "no tag" };
        write!(
            f,
            "{size} bytes, {sectors} sector{plural}, version 0x{version:08x}, sum 0x{sum:08x}, {sealed}, {tagged}"
        )
    }
}
