// Whether pending work fits the memory that it stands in, once its bitmaps are known to be valid.
ghost use Rattle.std.specs.Prelude.{◌≡◌, ◌≤◌, true, not};
ghost use Rattle.bitmap.specs.Sizes.{max_blocks};
ghost use Rattle.model_types.specs.Memory.{is_active};
ghost use Rattle.model.specs.Rules.Valid.{all_slots, pending_valid, valid};
ghost use Rattle.validity.specs.Checked.{bare};
ghost use Rattle.validity.specs.Pending.{commit_valid};
ghost use Rattle.model_types.specs.Shape.{HasShape};

use bitmap::Bitmap;
use bitops::compare::{changed, same};
use model_types::memory::{Memory, Pending, Slot, SlotState};

// A commit's slot is precommitted, and there are three stores for each word at which its TAM differs from SAM, one at
// least, and two more.
#[tactic(auto, using(crate::proofs::Laws::Pending::changed_most), unfolding(crate::specs::Pending::changed_words, crate::specs::Pending::commit_valid))]
pub fn commit_valid(
    state: SlotState,
    sam: &[u32; 128],
    tam: &[u32; 128],
    done: u32,
    due: u32,
) -> bool
    ensures { result ≡ commit_valid state sam.now tam.now done due }
{
    if !state.is_precommitted() {
        return false;
    }
    let words = changed(sam, tam);
    0 < words && due == Pending::stores_for(words) && done < due
}

// The same of the slot that a commit is of. A slot number above 7 has none.
#[tactic(auto, using(crate::proofs::Laws::Pending::commit_by_tam, crate::proofs::Laws::Pending::commit_past))]
fn slot_commit_valid(memory: &Memory, slot: u32, done: u32, due: u32) -> bool
    requires shape { HasShape memory.now }
    requires maps { valid (bare memory.now) ≡ true }
    ensures { result ≡ pending_valid memory.now (Pending.Commit slot done due) }
{
    let Some(owner) = memory.slots.get(slot as usize) else {
        return false;
    };
    commit_valid(owner.state, &memory.sam.words, &owner.tam.words, done, due)
}

// Whether all slots are idle.
fn all_idle(slots: &[Slot; 8]) -> bool
    ensures { result ≡ all_slots (λ slot. not (is_active slot.state)) slots.now }
{
    slots.iter().all(|slot| !slot.state.is_active())
}

// During a recovery all slots are idle, COM equals SAM, and there are 2 to W + 1 stores. Neither the cursor nor what is reserved
// plays a part.
#[tactic(auto, unfolding(model::specs::Rules::Valid::pending_valid, model::specs::Rules::Valid::is_quiet))]
pub fn recovery_valid(memory: &Memory, done: u32, due: u32) -> bool
    requires { memory.now.blocks ≤ max_blocks }
    ensures { result ≡ pending_valid memory.now (Pending.Recovery done due) }
{
    all_idle(&memory.slots)
        && same(&memory.com.words, &memory.sam.words)
        && 2 <= due
        && due <= Bitmap::words_for(memory.blocks) + 1
        && done < due
}

// Whether the memory's own pending work fits.
#[tactic(auto, using(crate::proofs::Laws::Slots::few_blocks), unfolding(model::specs::Rules::Valid::pending_valid))]
pub(crate) fn pending_valid(memory: &Memory) -> bool
    requires shape { HasShape memory.now }
    requires maps { valid (bare memory.now) ≡ true }
    ensures { result ≡ pending_valid memory.now memory.now.pending }
{
    match memory.pending {
        Pending::Nothing => true,
        Pending::Commit { slot, done, due } => slot_commit_valid(memory, slot, done, due),
        Pending::Recovery { done, due } => recovery_valid(memory, done, due),
    }
}
