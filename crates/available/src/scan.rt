// Available blocks found and taken, in the order met.
ghost use Rattle.std.specs.Prelude.{◌≡◌, ◌≤◌};
ghost use Rattle.bitmap.specs.Sizes.{max_blocks};
ghost use Rattle.available.specs.Available.{next_available, next_met};
ghost use Rattle.available.specs.Take.{CanTake, TakesMet};

use crate::available::available_word;
use crate::search::next_block;
use bitmap::Bitmap;
use bitops::block;

// The lowest available block from start on, or the number of blocks where there is none.
pub fn next_available(sam: &[u32; 128], com: &[u32; 128], blocks: u32, start: u32) -> u32
    requires { blocks ≤ max_blocks }
    ensures { result ≡ next_available blocks sam.now «com».now start }
{
    next_block(blocks, start, |k| available_word(sam, com, blocks, k))
}

// The first available block met from start on, going round, or the number of blocks where there is none.
#[tactic(auto, using(crate::proofs::Laws::Scan::met_ahead, crate::proofs::Laws::Scan::met_behind))]
pub fn next_met(sam: &[u32; 128], com: &[u32; 128], blocks: u32, start: u32) -> u32
    requires blocks_le_max_blocks { blocks ≤ max_blocks }
    requires start_le_blocks { start ≤ blocks }
    ensures { result ≡ next_met blocks sam.now «com».now start }
{
    let found = next_available(sam, com, blocks, start);
    if found < blocks {
        return found;
    }
    next_available(sam, com, blocks, 0)
}

// Takes the first available blocks met from the cursor on, as many as count: their bits in COM and TAM become 1, and their
// numbers go to the first places of the list, in the order met. Later places stay. It gives the cursor after them.
pub fn take_met(
    sam: &[u32; 128],
    com: &mut [u32; 128],
    tam: &mut [u32; 128],
    list: &mut [u32],
    blocks: u32,
    cursor: u32,
    count: u32,
) -> u32
    requires { CanTake blocks cursor count sam.now «com».old tam.old list.old }
    ensures { TakesMet blocks cursor count sam.now «com».old tam.old list.old
        «com».new tam.new list.new result }
{
    let mut next = cursor;
    // No plainer without a count: n is the place in the list.
    for n in 0..count {
        let found = next_met(sam, com, blocks, next);
        block::put(com, found);
        block::put(tam, found);
        list[n as usize] = found;
        next = found + 1;
    }
    Bitmap::wrapped(next, blocks)
}
