// A search upwards for the first block that has its bit in a word.
ghost use Rattle.std.specs.Prelude.{◌≡◌, ◌≤◌};
ghost use Rattle.bitmap.specs.Sizes.{max_blocks};
ghost use Rattle.available.specs.Search.{GivesWords, FindsNext};

use bitmap::Bitmap;

// The lowest block from start on whose bit is 1 in the words that a function gives by their numbers, or the number of blocks where
// there is none: no Option, since the definitions name that number, and who takes blocks knows that there are some.
pub fn next_block<F: Fn(usize) -> u32>(blocks: u32, start: u32, word: F) -> u32
    requires volume { blocks ≤ max_blocks }
    requires words { GivesWords (F.pre word) blocks }
    ensures { FindsNext (F.post word) blocks start result }
{
    let mut block = start;
    while block < blocks {
        let k = block / Bitmap::WORD_BITS;
        let bits = word(k as usize) >> (block % Bitmap::WORD_BITS);
        if bits != 0 {
            return block + bits.trailing_zeros();
        }
        block = (k + 1) * Bitmap::WORD_BITS;
    }
    blocks
}
