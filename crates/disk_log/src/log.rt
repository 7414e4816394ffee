// The log of a disk: its entries, and whether they are valid.
ghost use Rattle.std.specs.Prelude.{◌≡◌, ◌&&◌, ◌≤◌, ◌-◌, ◌*◌, ◌^◌, leb, ltb, map};
ghost use Rattle.bitmap.specs.Sizes.{bitmap_words, max_blocks, words_for};
ghost use Rattle.model.specs.Rules.Disk.{disk_blocks, log_length, log_entries, log_valid};
ghost use Rattle.disk_log.specs.Given.{entry_of};

use crate::layout::{BLOCKS_AT, DISK_WORDS, LENGTH_AT, LOG_AT};
use bitmap::Bitmap;

// The entries of the log. Of each its number, which is the word of the bitmap that it is for, and its contents.
#[tactic(auto, unfolding(model::specs::Rules::Disk::length_in))]
pub fn entries(disk: &[u32; DISK_WORDS]) -> &[[u32; 2]]
    requires few { log_length disk.now ≤ bitmap_words }
    ensures { map entry_of result.now ≡ log_entries disk.now }
{
    let count = disk[LENGTH_AT] as usize;
    let (entries, _) = disk[LOG_AT..LOG_AT + 2 * count].as_chunks::<2>();
    entries
}

// Whether a word has no bits from this one on.
fn below(word: u32, bits: u32) -> bool
    ensures { result ≡ ltb word (2 ^ bits) }
{
    Bitmap::WORD_BITS <= bits || word >> bits == 0
}

// Whether an entry may follow in a log of so many blocks: its number from low on and below W, no bits from m on.
fn entry_valid(blocks: u32, low: u32, number: u32, contents: u32) -> bool
    requires { blocks ≤ max_blocks }
    ensures { result ≡ (leb low number && ltb number (words_for blocks) && ltb contents (2 ^ (blocks - 32 * number))) }
{
    low <= number
        && number < Bitmap::words_for(blocks)
        && below(contents, blocks - Bitmap::WORD_BITS * number)
}

// Whether the log is valid: cause 5 doesn't hold.
#[tactic(auto, unfolding(model::specs::Rules::Disk::length_in))]
pub fn log_valid(disk: &[u32; DISK_WORDS]) -> bool
    requires disk_bound { disk_blocks disk.now ≤ max_blocks }
    ensures { result ≡ log_valid disk.now }
{
    let blocks = disk[BLOCKS_AT];
    if Bitmap::words_for(blocks) < disk[LENGTH_AT] {
        return false;
    }
    let mut low = 0;
    for &[number, contents] in entries(disk) {
        if !entry_valid(blocks, low, number, contents) {
            return false;
        }
        low = number + 1;
    }
    true
}
