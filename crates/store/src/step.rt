// One store of a valid memory's pending work, on a disk of the right length: whether the disk fits it, and the word written. The new
// SAM of a pending commit is its slot's TAM.
ghost use Rattle.std.specs.Prelude.{◌≡◌, true};
ghost use Rattle.model.specs.Rules.Valid.{valid};
ghost use Rattle.model.specs.Rules.Disk.{disk_matches};
ghost use Rattle.model.specs.Rules.Calls.Store.{next_stored};
ghost use Rattle.model_types.specs.Shape.{HasShape};

use disk_log::layout::DISK_WORDS;
use disk_match::matching::{commit_matches, settled_matches};
use disk_match::recovery::recovery_matches;
use model_types::memory::{Memory, Pending};
use next_store::stores::{store_commit, store_recovery};

// Whether the disk is as the memory and its stores done leave it.
#[tactic(auto, using(crate::proofs::Laws::Work::commit_below, crate::proofs::Laws::Work::commit_left, crate::proofs::Laws::Work::due_is, crate::proofs::Laws::Work::recovery_left, crate::proofs::Laws::Next::commit_matched, crate::proofs::Laws::Work::few_blocks), unfolding(model::specs::Rules::Disk::disk_matches, model::specs::Rules::Disk::parts_match, model::specs::Rules::Disk::stores_match, model::specs::Rules::Disk::stores_of))]
pub fn matches(memory: &Memory, disk: &[u32; DISK_WORDS]) -> bool
    requires shape { HasShape memory.now }
    requires sound { valid memory.now ≡ true }
    ensures { result ≡ disk_matches memory.now disk.now memory.now.pending }
{
    let sam = &memory.sam.words;
    match memory.pending {
        Pending::Nothing => settled_matches(disk, memory.blocks, sam),
        Pending::Commit { slot, done, due } => {
            let new = &memory.slots[slot as usize].tam.words;
            commit_matches(disk, memory.blocks, sam, new, done, due)
        }
        Pending::Recovery { done, due } => recovery_matches(disk, memory.blocks, sam, done, due),
    }
}

// Makes the next store: one word of the disk, and no other.
#[tactic(auto, using(crate::proofs::Laws::Work::commit_below, crate::proofs::Laws::Work::commit_left, crate::proofs::Laws::Work::due_is, crate::proofs::Laws::Next::nothing_stored, crate::proofs::Laws::Next::commit_stored, crate::proofs::Laws::Next::recovery_stored))]
pub fn store_next(memory: &Memory, disk: &mut [u32; DISK_WORDS])
    requires shape { HasShape memory.now }
    requires sound { valid memory.now ≡ true }
    requires fits { disk_matches memory.now disk.old memory.now.pending ≡ true }
    ensures { disk.new ≡ next_stored memory.now disk.old }
{
    match memory.pending {
        Pending::Nothing => {}
        Pending::Commit { slot, done, due } => {
            let new = &memory.slots[slot as usize].tam.words;
            store_commit(disk, &memory.sam.words, new, done, due)
        }
        Pending::Recovery { done, .. } => store_recovery(disk, done),
    }
}
