// Bench images in a lent flash: the search, the header, the sum, and the seven checks. `size` is the size of a sector.
// Kept: flash and `size` side by side, no struct of both: `find_image`, `check` and `clear_after` are promised for any lent slice, as C lends it.
#![tactic(auto)]

ghost use Rattle.std.specs.Prelude.{◌≡◌, ◌+◌, ◌-◌, ◌*◌, ◌<◌, ◌≤◌, length, IfSome};
ghost use Rattle.image.specs.Sums.{sum_of, begins};
ghost use Rattle.image.specs.Images.{find, header_of, header_lawful, room_for, tag_key_is, tag_lawful, floor_lawful, judged, checked_of, Erasable, flash_after};

use answer::{Checked, Failure};

// A header as it stands.
// Kept: `kind`, `seal` and `tag` are bytes and no enums: a header with any byte there is read, and `header_lawful` says which are refused.
#[derive(Clone, Copy)]
pub struct Header {
    pub kind: u8,
    pub seal: u8,
    pub tag: u8,
    pub size: u32,
    pub version: u32,
    pub sum: u32,
}

impl Header {
    // The header of the image that `part` begins with.
    fn read(part: &[u8]) -> Header
        requires { 84 ≤ length part.now }
        ensures { result ≡ header_of part.now }
    {
        Header {
            kind: part[5],
            seal: part[6],
            tag: part[7],
            size: basics::word_at(part, 8),
            version: basics::word_at(part, 12),
            sum: basics::word_at(part, 16),
        }
    }

    // Check 2.
    fn is_lawful(self) -> bool
        ensures { result ≡ header_lawful self }
    {
        self.kind == 1
            && self.seal <= 1
            && self.tag <= 1
            && 84 <= self.size
            && self.size % 4 == 0
            && self.version != 0xFFFFFFFF
    }
}

// What a device asks of an image: that it lies below the boundary; its tag key, where an authentication key is stored; a version not
// under the floor, where anti-rollback is on.
// Kept: `auth` beside the key and `rollback` beside `floor`, no Option: `terms_of` takes them from a head as they stand, and `Holds` in promises speaks of `terms.auth`, `terms.rollback` and `terms.floor`.
#[derive(Clone, Copy)]
pub struct Terms {
    pub boundary: usize,
    pub auth: bool,
    pub rollback: bool,
    pub floor: u32,
}

// Whether `part` begins with `mark`.
pub fn starts(part: &[u8], mark: &[u8]) -> bool
    ensures { result ≡ begins part.now mark.now }
{
    part.starts_with(mark)
}

// The highest sector below `boundary` that starts with the five bytes of mark and version. (No more than five are handed on: a part of
// known length runs as fast as plain C.)
pub fn find_image(flash: &[u8], size: usize, boundary: usize) -> Option<usize>
    requires { (5 ≤ size) × (boundary * size ≤ length flash.now) }
    ensures value { result ≡ find size flash.now boundary }
    ensures below { IfSome result (λ p. p < boundary) }
{
    for sector in (0..boundary).rev() {
        let at = sector * size;
        let end = at + 5;
        if starts(&flash[at..end], b"BNI\x01\x00") {
            return Some(sector);
        }
    }
    None
}

// The words of `body`, added; the sum wraps at 2^32.
pub fn image_sum(body: &[u8]) -> u32
    ensures { result ≡ sum_of body.now }
{
    let (words, _) = body.as_chunks::<4>();
    let mut sum: u32 = 0;
    for word in words {
        sum = sum.wrapping_add(u32::from_le_bytes(*word));
    }
    sum
}

// Check 3.
fn room_for(size: usize, p: usize, bytes: u32, boundary: usize) -> bool
    requires { (0 < size) × (size ≤ 65536) × (p ≤ 65536) }
    ensures { result ≡ room_for size p bytes boundary }
{
    p + sectors::sectors_for(bytes, size) + 1 <= boundary
}

// Check 6 of the image that `part` begins with, whose header has the user tag `tag`.
fn tag_lawful(part: &[u8], tag: u8, auth: bool, key: &[u8]) -> bool
    requires { 84 ≤ length part.now }
    ensures { result ≡ tag_lawful auth tag (tag_key_is part.now key.now) }
{
    !auth || (tag == 1 && starts(&part[20..], key))
}

// Check 7.
fn floor_lawful(rollback: bool, floor: u32, version: u32) -> bool
    ensures { result ≡ floor_lawful rollback floor version }
{
    !rollback || floor <= version
}

// Checks 2 to 7 of the image that `part` begins with; it stands at sector `p`.
#[tactic(auto, unfolding(crate::specs::Images::judged, crate::specs::Images::decided, basics::specs::Choice::pick))]
fn judge(part: &[u8], size: usize, p: u32, terms: Terms, key: &[u8]) -> Checked
    requires le_size { (84 ≤ size) × (size ≤ 65536) × (p < terms.boundary) × (terms.boundary ≤ 65536) }
    requires size_in_bounds { (terms.boundary - p) * size ≤ length part.now }
    ensures { result ≡ judged size terms key.now part.now p }
{
    let header = Header::read(part);
    if !header.is_lawful() {
        return Checked::Erases {
            failure: Failure::BadHeader,
            p,
        };
    }
    if !room_for(size, p as usize, header.size, terms.boundary) {
        return Checked::Fails(Failure::NoRoom);
    }
    let end = header.size as usize;
    if image_sum(&part[84..end]) != header.sum {
        return Checked::Erases {
            failure: Failure::WrongSum,
            p,
        };
    }
    if header.seal != 1 {
        return Checked::Fails(Failure::NotSealed);
    }
    if !tag_lawful(part, header.tag, terms.auth, key) {
        return Checked::Fails(Failure::WrongTag);
    }
    if !floor_lawful(terms.rollback, terms.floor, header.version) {
        return Checked::Fails(Failure::UnderFloor);
    }
    Checked::Good {
        p,
        size: header.size,
        version: header.version,
    }
}

// The seven checks. They change nothing: see `clear_after`.
#[tactic(auto, using(crate::proofs::Judging::judge_inside), unfolding(crate::specs::Images::checked_of))]
pub fn check(flash: &[u8], size: usize, terms: Terms, key: &[u8]) -> Checked
    requires le_size { (84 ≤ size) × (size ≤ 65536) × (terms.boundary ≤ 65536) }
    requires size_in_bounds { terms.boundary * size ≤ length flash.now }
    ensures { result ≡ checked_of size terms key.now flash.now }
{
    match find_image(flash, size, terms.boundary) {
        Some(p) => {
            let at = p * size;
            judge(&flash[at..], size, p as u32, terms, key)
        }
        None => Checked::Fails(Failure::NoImage),
    }
}

// Erases sector p, where the check that failed is one of the two that do.
pub fn clear_after(flash: &mut [u8], size: usize, checked: Checked)
    requires { Erasable size (length flash.old) checked }
    ensures { flash.new ≡ flash_after size checked flash.old }
{
    if let Checked::Erases { p, .. } = checked {
        sectors::erase(flash, size, p as usize);
    }
}
