// One block of a bitmap: the test of its bit, and its bit set and cleared. The block's bound is a clause: a type for it would be made
// for each number that code computes, and taken apart here.
ghost use Rattle.std.specs.Prelude.{◌≡◌, ◌<◌, ◌^◌, ◌%◌};
ghost use Rattle.bitmap.specs.Sizes.{max_blocks, word_bits};
ghost use Rattle.bitmap.specs.Bits.{bit};
ghost use Rattle.bitops.specs.Block.{put_bit, clear_bit};

use bitmap::Bitmap;

// The word that has the block's bit alone.
fn mask(block: u32) -> u32
    ensures { result ≡ 2 ^ (block % word_bits) }
{
    1 << (block % Bitmap::WORD_BITS)
}

// Whether the block's bit is 1.
#[tactic(auto, using(crate::proofs::Laws::Block::has_bit), unfolding(bitmap::specs::Bits::bit))]
pub fn has(words: &[u32; 128], block: u32) -> bool
    requires { block < max_blocks }
    ensures { result ≡ bit words.now block }
{
    let word = words[(block / Bitmap::WORD_BITS) as usize];
    (word >> (block % Bitmap::WORD_BITS)) & 1 == 1
}

// Sets the block's bit. The others stay.
#[tactic(auto, unfolding(crate::specs::Block::put_bit))]
pub fn put(words: &mut [u32; 128], block: u32)
    requires { block < max_blocks }
    ensures { words.new ≡ put_bit words.old block }
{
    let place = (block / Bitmap::WORD_BITS) as usize;
    let word = words[place];
    words[place] = word | mask(block);
}

// Clears the block's bit. The others stay.
#[tactic(auto, unfolding(crate::specs::Block::clear_bit))]
pub fn clear(words: &mut [u32; 128], block: u32)
    requires { block < max_blocks }
    ensures { words.new ≡ clear_bit words.old block }
{
    let place = (block / Bitmap::WORD_BITS) as usize;
    let word = words[place];
    words[place] = word & !mask(block);
}
