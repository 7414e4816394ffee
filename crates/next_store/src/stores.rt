// The next store of a commit and of a recovery, found and made. That a store is left is a clause and no type, since pending work may
// be lent with any numbers.
ghost use Rattle.std.specs.Prelude.{◌≡◌, true, ◌≤◌, ◌<◌, length, take, drop};
ghost use Rattle.bitmap.specs.Sizes.{max_blocks};
ghost use Rattle.model_types.specs.Pending.{stores_for};
ghost use Rattle.model.specs.Rules.Stores.{writes, changes, commit_stores, checkpoint_stores};
ghost use Rattle.model.specs.Rules.Disk.{disk_blocks, log_length, log_entries, log_valid};

use crate::next::{commit_next, recovery_next};
use disk_log::layout::DISK_WORDS;
use model_types::memory::Pending;

// Makes the next store of a commit from SAM to a new one: one word of the disk, and no other.
#[tactic(auto, using(crate::proofs::Laws::NextStore::made))]
pub fn store_commit(
    disk: &mut [u32; DISK_WORDS],
    sam: &[u32; 128],
    new: &[u32; 128],
    done: u32,
    due: u32,
)
    requires due_value { due ≡ stores_for (length (changes sam.now new.now)) }
    requires done_lt_due { done < due }
    ensures { disk.new ≡ writes (take 1 (drop done (commit_stores (changes sam.now new.now)))) disk.old }
{
    let changed = Pending::changed_for(due);
    let store = commit_next(sam, new, changed as usize, done as usize);
    disk[store.place] = store.value;
}

// Makes the next store of a recovery, from the disk's own log: one word of the disk, and no other.
#[tactic(auto, using(crate::proofs::Laws::NextStore::made))]
pub fn store_recovery(disk: &mut [u32; DISK_WORDS], done: u32)
    requires disk_bound { disk_blocks disk.old ≤ max_blocks }
    requires disk_value { log_valid disk.old ≡ true }
    requires done_bound { done ≤ log_length disk.old }
    ensures { disk.new ≡ writes (take 1 (drop done (checkpoint_stores (log_entries disk.old)))) disk.old }
{
    let store = recovery_next(disk, done as usize);
    disk[store.place] = store.value;
}
