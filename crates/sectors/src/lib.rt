// Sectors of a lent flash: erase one, copy one, leave a filler in one. `size` is the size of a sector.
// Kept: flash and `size` side by side, no struct of both: `erase`, `spoil` and `copy` are promised for any lent slice, as C lends it.
#![tactic(auto)]

ghost use Rattle.std.specs.Prelude.{◌≡◌, ◌+◌, ◌-◌, ◌*◌, ◌≤◌, ◌<◌, ◌++◌, length, replicate};
ghost use Rattle.sectors.specs.Sectors.{sector, put_sector, erased, fit, sectors_for};

// How many sectors `bytes` bytes take.
// Kept: what is asked of a sector's size is a clause, here and in five functions above, and no type: `sectors_for`, `blocks` and `is_sound` are promised for any such number.
pub fn sectors_for(bytes: u32, size: usize) -> usize
    requires { (0 < size) × (size ≤ 65536) }
    ensures { result ≡ sectors_for size bytes }
{
    (bytes as usize).div_ceil(size)
}

// Every byte of `part` becomes `value`.
pub fn fill(part: &mut [u8], value: u8)
    ensures { part.new ≡ replicate (length part.old) value }
{
    part.fill(value)
}

// `bytes` go to the front of `place`, and 0xFF behind them.
fn store(place: &mut [u8], bytes: &[u8])
    requires { length bytes.now ≤ length place.old }
    ensures { place.new ≡ bytes.now ++ replicate (length place.old - length bytes.now) 0xFF }
{
    let (front, back) = place.split_at_mut(bytes.len());
    front.copy_from_slice(bytes);
    fill(back, 0xFF);
}

// The target sector is lent on, and with it no other sector can be reached.
#[tactic(auto, unfolding(crate::specs::Sectors::put_sector, crate::specs::Sectors::erased))]
pub fn erase(flash: &mut [u8], size: usize, target: usize)
    requires { (target + 1) * size ≤ length flash.old }
    ensures { flash.new ≡ put_sector size flash.old target (erased size) }
{
    let start = target * size;
    let end = start + size;
    fill(&mut flash[start..end], 0xFF);
}

// What a cut store leaves.
#[tactic(auto, unfolding(crate::specs::Sectors::put_sector))]
pub fn spoil(flash: &mut [u8], size: usize, target: usize, filler: &[u8])
    requires size_in_bounds { (target + 1) * size ≤ length flash.old }
    requires filler_len { length filler.now ≡ size }
    ensures { flash.new ≡ put_sector size flash.old target filler.now }
{
    let start = target * size;
    let end = start + size;
    flash[start..end].copy_from_slice(filler);
}

// The first `count` bytes of the source sector, then 0xFF, go to the target sector. The flash is split where the later of the two
// begins, so that one can be read while the other is written.
#[tactic(auto, unfolding(crate::specs::Sectors::put_sector, crate::specs::Sectors::sector, crate::specs::Sectors::fit))]
pub fn copy(flash: &mut [u8], size: usize, source: usize, target: usize, count: usize)
    requires size_in_bounds { ((source + 1) * size ≤ length flash.old) × ((target + 1) * size ≤ length flash.old) }
    requires count_le_size { (count ≤ size) × (source ≡ target → ⊥) }
    ensures { flash.new ≡ put_sector size flash.old target (fit size count (sector size flash.old source)) }
{
    let from = source * size;
    let to = target * size;
    if source < target {
        let (front, back) = flash.split_at_mut(to);
        let end = from + count;
        store(&mut back[..size], &front[from..end]);
    } else {
        let (front, back) = flash.split_at_mut(from);
        let end = to + size;
        store(&mut front[to..end], &back[..count]);
    }
}
