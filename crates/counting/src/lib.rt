// Counts of a volume's blocks, a word at a time.
#![tactic(auto)]

ghost use Rattle.std.specs.Prelude.{◌≡◌, ◌/◌, ◌≤◌, length};
ghost use Rattle.bitmap.specs.Sizes.{max_blocks, word_bits, bitmap_words};
ghost use Rattle.bitmap.specs.Blocks.{available_blocks};
ghost use Rattle.counting.specs.Count.{IsTally, CountsOnes, count_differing, count_from};

use available::available::available_word;
use bitmap::Bitmap;

// Blocks counted by their bits in SAM and COM.
#[derive(Clone, Copy)]
pub struct Tally {
    pub allocated: u32,
    pub allocating: u32,
    pub freeing: u32,
}

// Counts the blocks that are allocated, being allocated and being freed, in one pass over all words.
pub fn count_blocks(sam: &[u32; 128], com: &[u32; 128]) -> Tally
    ensures { IsTally sam.now «com».now result }
{
    let mut allocated = 0;
    let mut allocating = 0;
    let mut freeing = 0;
    for (s, c) in sam.iter().zip(com) {
        allocated += s.count_ones();
        allocating += (!s & c).count_ones();
        freeing += (s & !c).count_ones();
    }
    Tally {
        allocated,
        allocating,
        freeing,
    }
}

// The number of bits in the words that a function makes of the words of two lists, place by place, in one pass.
fn count<F: Fn(u32, u32) -> u32>(left: &[u32], right: &[u32], word: F) -> u32
    requires few { length left.now ≤ bitmap_words }
    requires callable { F.IsAlwaysCallable word }
    ensures { CountsOnes (F.post word) left.now right.now result }
{
    let mut count = 0;
    for (a, b) in left.iter().zip(right) {
        count += word(*a, *b).count_ones();
    }
    count
}

// The number of blocks at which two bitmaps differ.
pub fn count_differing(left: &[u32; 128], right: &[u32; 128]) -> u32
    ensures { result ≡ count_differing left.now right.now }
{
    count(left, right, |left, right| left ^ right)
}

// The number of available blocks after the words that the volume fills: those of the word that it fills in part.
fn count_rest(sam: &[u32; 128], com: &[u32; 128], blocks: u32) -> u32
    requires { blocks ≤ max_blocks }
    ensures { result ≡ count_from blocks sam.now «com».now (blocks / word_bits) }
{
    if blocks % Bitmap::WORD_BITS == 0 {
        return 0;
    }
    available_word(sam, com, blocks, (blocks / Bitmap::WORD_BITS) as usize).count_ones()
}

// The number of available blocks of a volume: those of the words that it fills, and those of the rest.
pub fn count_available(sam: &[u32; 128], com: &[u32; 128], blocks: u32) -> u32
    requires { blocks ≤ max_blocks }
    ensures { result ≡ length (available_blocks blocks sam.now «com».now) }
{
    let whole = (blocks / Bitmap::WORD_BITS) as usize;
    let count = count(&sam[..whole], &com[..whole], |sam, com| !(sam | com));
    count + count_rest(sam, com, blocks)
}
