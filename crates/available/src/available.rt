// The available blocks of one word: those with SAM 0 and COM 0. SAM, COM and the block count come apart, and the count's bound in a
// clause: a memory may be lent with any count, and COM is changed while SAM is read, so no type holds the three.
ghost use Rattle.std.specs.Prelude.{◌≡◌, ◌≤◌, ◌<◌};
ghost use Rattle.bitmap.specs.Sizes.{max_blocks, words_for};
ghost use Rattle.available.specs.Available.{available_word};

use bitmap::Bitmap;

// The available blocks of word k of a volume, as the bits of a word.
#[tactic(auto, using(crate::proofs::Laws::Available::available_part))]
pub fn available_word(sam: &[u32; 128], com: &[u32; 128], blocks: u32, k: usize) -> u32
    requires blocks_le_max_blocks { blocks ≤ max_blocks }
    requires k_bound { k < words_for blocks }
    ensures { result ≡ available_word blocks sam.now «com».now k }
{
    let free = !(sam[k] | com[k]);
    let left = blocks - k as u32 * Bitmap::WORD_BITS;
    if left < Bitmap::WORD_BITS {
        free & ((1 << left) - 1)
    } else {
        free
    }
}
