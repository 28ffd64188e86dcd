// The leaves that touch flash, as C calls them: `bench/leaves` measures them beside plain C.
// Kept: the boundary for no sector, and lengths beside what is lent: C has no Option and no slices of its own.
#![tactic(auto)]

ghost use Rattle.std.specs.Prelude.{◌≡◌};
ghost use Rattle.image.specs.Sums.{sum_of};
ghost use Rattle.leaves.specs.Leaves.{held, erase_of, copies, copy_of, searches, search_of};

#[tactic(auto, unfolding(crate::specs::Leaves::held, basics::specs::Choice::pick))]
fn sectors_in(bytes: usize, size: usize) -> usize
    ensures { result ≡ held size bytes }
{
    bytes.checked_div(size).unwrap_or(0)
}

fn may_copy(bytes: usize, size: usize, source: usize, target: usize, count: usize) -> bool
    ensures { result ≡ copies size bytes source target count }
{
    let all = sectors_in(bytes, size);
    source < all && target < all && count <= size && source != target
}

fn may_search(bytes: usize, size: usize, boundary: usize) -> bool
    ensures { result ≡ searches size bytes boundary }
{
    5 <= size && boundary <= sectors_in(bytes, size)
}

#[tactic(auto, using(crate::proofs::Laws::sector_inside), unfolding(crate::specs::Leaves::erase_of, basics::specs::Choice::pick))]
#[unsafe(no_mangle)]
pub extern "C" fn leaves_erase(flash: &mut [u8], size: usize, target: usize)
    ensures { flash.new ≡ erase_of size flash.old target }
{
    if target < sectors_in(flash.len(), size) {
        sectors::erase(flash, size, target);
    }
}

#[tactic(auto, using(crate::proofs::Laws::copies_inside), unfolding(crate::specs::Leaves::copy_of, basics::specs::Choice::pick))]
#[unsafe(no_mangle)]
pub extern "C" fn leaves_copy(
    flash: &mut [u8],
    size: usize,
    source: usize,
    target: usize,
    count: usize,
)
    ensures { flash.new ≡ copy_of size flash.old source target count }
{
    if may_copy(flash.len(), size, source, target, count) {
        sectors::copy(flash, size, source, target, count);
    }
}

#[unsafe(no_mangle)]
pub extern "C" fn leaves_sum(body: &[u8]) -> u32
    ensures { result ≡ sum_of body.now }
{
    image::image_sum(body)
}

// The sector where an image starts, or the boundary.
#[tactic(auto, using(crate::proofs::Laws::searches_inside), unfolding(crate::specs::Leaves::search_of, basics::specs::Choice::pick))]
#[unsafe(no_mangle)]
pub extern "C" fn leaves_search(flash: &[u8], size: usize, boundary: usize) -> usize
    ensures { result ≡ search_of size flash.now boundary }
{
    if !may_search(flash.len(), size, boundary) {
        return boundary;
    }
    image::find_image(flash, size, boundary).unwrap_or(boundary)
}
