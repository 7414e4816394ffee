// One bitmap: a bit for each block of a volume, in words of 32 bits, with the limits of a volume as its own constants and
// functions. Its definitions and laws stand in specs/; code on its words in the crate bitops.
#![tactic(auto)]

ghost use Rattle.std.specs.Prelude.{◌≡◌, ◌≤◌};
ghost use Rattle.bitmap.specs.Round.{wrapped};
ghost use Rattle.bitmap.specs.Sizes.{max_blocks, words_for, blocks_in_range, count_in_range, slot_in_range, slot_index, IsSlot};

// Document 01's map: block b is bit b mod 32 of word b div 32, and 1 means allocated.
#[derive(Clone, Copy)]
pub struct Bitmap {
    pub words: [u32; 128],
}

impl Bitmap {
    // The most blocks that a volume has.
    pub const BLOCKS: u32 = 4096;
    // The words of a bitmap.
    pub const WORDS: usize = 128;
    // The bits of a word.
    pub const WORD_BITS: u32 = 32;
    // The transaction slots: one bitmap each.
    pub const SLOTS: usize = 8;
    // The most blocks that one allocate gives.
    pub const COUNT: u32 = 64;
    // The empty bitmap.
    pub const EMPTY: Bitmap = Bitmap { words: [0; 128] };

    // Whether a volume can have so many blocks.
    pub fn blocks_in_range(blocks: u32) -> bool
        ensures { result ≡ blocks_in_range blocks }
    {
        if blocks < 1 {
            return false;
        }
        blocks <= Bitmap::BLOCKS
    }

    // W: the words that so many blocks fill.
    pub fn words_for(blocks: u32) -> u32
        requires { blocks ≤ max_blocks }
        ensures { result ≡ words_for blocks }
    {
        (blocks + (Bitmap::WORD_BITS - 1)) / Bitmap::WORD_BITS
    }

    // The block at a place of a volume of so many: the place after the last block is block 0 again.
    pub fn wrapped(place: u32, blocks: u32) -> u32
        ensures { result ≡ wrapped blocks place }
    {
        if place == blocks { 0 } else { place }
    }

    // Whether one allocate can give so many blocks.
    pub fn count_in_range(count: u32) -> bool
        ensures { result ≡ count_in_range count }
    {
        if count < 1 {
            return false;
        }
        count <= Bitmap::COUNT
    }

    // Whether there is a slot of this number.
    pub fn slot_in_range(slot: u32) -> bool
        ensures { result ≡ slot_in_range slot }
    {
        (slot as usize) < Bitmap::SLOTS
    }

    // The slot to look at: this one, and 0 for a number that no slot has. What is found there then decides nothing.
    pub fn slot_index(slot: u32) -> usize
        ensures { IsSlot (slot_index slot) result }
    {
        if Bitmap::slot_in_range(slot) {
            slot as usize
        } else {
            0
        }
    }
}
