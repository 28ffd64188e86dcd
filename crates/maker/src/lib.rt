// Bench images made: the 84 bytes of header that a body gets, or why it can't be an image.
#![tactic(auto)]

pub mod version;

ghost use Rattle.std.specs.Prelude.{◌≡◌};
ghost use Rattle.maker.specs.Made.{header_bytes, key_for, made_of, making};

use device::Device;
use image::Header;

// The most bytes that a body can have: with no stack and the image at sector 0, check 3 leaves one sector of the flash over.
pub const LONGEST: usize = (Device::FUS_SECTOR - 1) * Device::SECTOR_SIZE - 84;

// What is wanted of an image: its version, a seal, and a tag under a key.
#[derive(Clone, Copy)]
pub struct Wanted {
    pub version: u32,
    pub sealed: bool,
    pub key: Option<[u8; 64]>,
}

// Why a body can't be an image: the first that applies, in this order.
#[derive(Clone, Copy)]
pub enum Unmade {
    // the body is no multiple of 4 bytes (check 2)
    NotWords,
    // the version is 0xFFFFFFFF, which stands for no stack (check 2)
    NoVersion,
    // no device has room for it (check 3)
    TooLong,
}

// The header that was made, and its bytes.
#[derive(Clone, Copy)]
pub struct Made {
    pub header: Header,
    pub bytes: [u8; 84],
}

// A header's bytes.
#[tactic(auto, unfolding(crate::specs::Made::header_bytes))]
fn header_bytes(h: Header, key: [u8; 64]) -> [u8; 84]
    ensures { result ≡ header_bytes h key }
{
    let mut bytes = [0; 84];
    bytes[..8].copy_from_slice(&[b'B', b'N', b'I', 1, 0, h.kind, h.seal, h.tag]);
    bytes[8..12].copy_from_slice(&h.size.to_le_bytes());
    bytes[12..16].copy_from_slice(&h.version.to_le_bytes());
    bytes[16..20].copy_from_slice(&h.sum.to_le_bytes());
    bytes[20..].copy_from_slice(&key);
    bytes
}

// The tag key that stands in the image: zeros where there is none.
#[tactic(auto, unfolding(crate::specs::Made::key_for, basics::specs::Words::zeros))]
fn key_for(wanted: Wanted) -> [u8; 64]
    ensures { result ≡ key_for wanted }
{
    wanted.key.unwrap_or([0; 64])
}

// Whether a body can be an image, and its header.
#[tactic(auto, using(crate::proofs::Laws::fits, crate::proofs::Laws::too_long), unfolding(crate::specs::Made::made_of, basics::specs::Choice::pick))]
fn made_of(body: &[u8], wanted: Wanted) -> Result<Header, Unmade>
    ensures { result ≡ made_of body.now wanted }
{
    let n = body.len();
    if n % 4 != 0 {
        return Err(Unmade::NotWords);
    }
    if wanted.version == 0xFFFFFFFF {
        return Err(Unmade::NoVersion);
    }
    if LONGEST < n {
        return Err(Unmade::TooLong);
    }
    Ok(Header {
        kind: 1,
        seal: wanted.sealed as u8,
        tag: wanted.key.is_some() as u8,
        size: 84 + n as u32,
        version: wanted.version,
        sum: image::image_sum(body),
    })
}

// The header of the image that `body` is the body of.
#[tactic(auto, unfolding(crate::specs::Made::making))]
pub fn make(body: &[u8], wanted: Wanted) -> Result<Made, Unmade>
    ensures { result ≡ making body.now wanted }
{
    let header = made_of(body, wanted)?;
    let bytes = header_bytes(header, key_for(wanted));
    Ok(Made { header, bytes })
}
