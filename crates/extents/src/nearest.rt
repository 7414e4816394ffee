// The start of an extent that is nearest to a block, outward from the block's word.
ghost use Rattle.std.specs.Prelude.{◌≡◌, ◌≤◌, ◌<◌};
ghost use Rattle.bitmap.specs.Sizes.{max_blocks};
ghost use Rattle.bitmap.specs.Bits.{bit};
ghost use Rattle.bitmap.specs.Blocks.{from, is_available};
ghost use Rattle.bitmap.specs.Extents.{nearest, starts};
ghost use Rattle.extents.specs.Nearest.{next_start, end_before, if_below, CanLook, CanSearch};

use crate::starts::find_starts;
use available::search::next_block;
use bitmap::Bitmap;

// The lowest start from a block on, or the number of blocks where there is none, as `next_block` gives it.
fn next_start(starts: &[u32; 129], blocks: u32, from: u32) -> u32
    requires { CanLook blocks starts.now }
    ensures { result ≡ next_start blocks starts.now from }
{
    next_block(blocks, from, |k| starts[k])
}

// The block after the highest start below a block, or 0 where there is none: so ends differ from 0, and no Option is needed. It goes
// down, where `next_block` goes up: one function for both would have a case in each of its lines.
fn end_before(starts: &[u32; 129], from: u32) -> u32
    requires { from ≤ max_blocks }
    ensures { result ≡ end_before starts.now from }
{
    let mut end = from;
    while 0 < end {
        let last = end - 1;
        let k = last / Bitmap::WORD_BITS;
        let bits = starts[k as usize] << (Bitmap::WORD_BITS - 1 - last % Bitmap::WORD_BITS);
        if bits != 0 {
            return end - bits.leading_zeros();
        }
        end = k * Bitmap::WORD_BITS;
    }
    0
}

// Of all starts the nearest to a block, the lower one at equal distance, or the number of blocks where there is none: no Option,
// since the start ahead is compared with the block count anyway.
#[tactic(auto, using(crate::proofs::Laws::Nearest::nearest_steps))]
fn nearest_start(starts: &[u32; 129], blocks: u32, near: u32) -> u32
    requires near_lt_blocks { near < blocks }
    requires can_look { CanLook blocks starts.now }
    ensures { result ≡ nearest near blocks (from (bit starts.now) blocks 0) }
{
    let upper = next_start(starts, blocks, near);
    let end = end_before(starts, near);
    if end == 0 {
        return upper;
    }
    let below = near - (end - 1);
    if upper < blocks && upper - near < below {
        return upper;
    }
    end - 1
}

// The start of the extent of so many available blocks that is nearest to a block, if there is any.
pub fn nearest_extent(
    sam: &[u32; 128],
    com: &[u32; 128],
    blocks: u32,
    count: u32,
    near: u32,
) -> Option<u32>
    requires { CanSearch blocks count near }
    ensures { result ≡ if_below blocks (nearest near blocks (starts (is_available sam.now «com».now) blocks count)) }
{
    let mut starts = [0; 129];
    find_starts(sam, com, blocks, count, &mut starts);
    let start = nearest_start(&starts, blocks, near);
    if start < blocks { Some(start) } else { None }
}
