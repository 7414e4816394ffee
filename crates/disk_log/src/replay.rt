// Replay: the bitmap that a disk stands for.
ghost use Rattle.std.specs.Prelude.{◌≡◌, true, ◌≤◌, drop};
ghost use Rattle.bitmap.specs.Sizes.{max_blocks};
ghost use Rattle.model.specs.Rules.Stores.{writes};
ghost use Rattle.model.specs.Rules.Disk.{disk_blocks, log_length, log_entries, log_valid, durable};

use crate::layout::DISK_WORDS;
use crate::log::entries;
use crate::sam::bitmap;

// Writes the entries of the log from this one on over a bitmap.
// No type for a valid log: a store's caller knows that it is valid, and such a type would test it again at each store.
#[tactic(auto, unfolding(model::specs::Rules::Disk::length_in))]
pub fn rewrite(words: &mut [u32; 128], disk: &[u32; DISK_WORDS], from: usize)
    requires disk_bound { disk_blocks disk.now ≤ max_blocks }
    requires disk_value { log_valid disk.now ≡ true }
    requires from_bound { from ≤ log_length disk.now }
    ensures { words.new ≡ writes (drop from (log_entries disk.now)) words.old }
{
    let log = entries(disk);
    for &[number, contents] in &log[from..] {
        words[number as usize] = contents;
    }
}

// The bitmap that a disk stands for: words 2 to 129 with the logged words written over them.
#[tactic(auto, unfolding(model::specs::Rules::Disk::durable))]
pub fn replay(disk: &[u32; DISK_WORDS]) -> [u32; 128]
    requires disk_bound { disk_blocks disk.now ≤ max_blocks }
    requires disk_value { log_valid disk.now ≡ true }
    ensures { result ≡ durable disk.now }
{
    let mut words = bitmap(disk);
    rewrite(&mut words, disk, 0);
    words
}
