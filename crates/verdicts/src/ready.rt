// The causes that these calls test first, and what a call that passes them knows.
ghost use Rattle.std.specs.Prelude.{◌≡◌, ◌<◌, IfOk};
ghost use Rattle.bitmap.specs.Sizes.{slot_count};
ghost use Rattle.model_types.specs.Answers.{answer};
ghost use Rattle.model.specs.Rules.First.{first};
ghost use Rattle.model.specs.Rules.CauseLists.{ready_causes, active_causes, of_slot};
ghost use Rattle.model.specs.Rules.Valid.{valid};
ghost use Rattle.model.specs.Rules.Calls.Start.{start_error};
ghost use Rattle.model.specs.Rules.Calls.Precommit.{precommit_error};
ghost use Rattle.model.specs.Rules.Calls.Commit.{commit_error};
ghost use Rattle.model_types.specs.Shape.{HasShape};
ghost use Rattle.verdicts.specs.Ready.{ready_of};

use bitmap::Bitmap;
use model_types::answer::Answer;
use model_types::error::Error;
use model_types::memory::Memory;
use validity::check;

// The slot's place, and the available blocks where they have been counted. That the place is below 8 is a clause and no ghost field,
// since the contracts are equations, and the definition of what they give would have to carry the proof.
#[derive(Clone, Copy, Debug, PartialEq, Eq)]
pub struct Ready {
    pub at: usize,
    pub counted: Option<u32>,
}

// Causes 1, 8 and 10: all of them.
fn there(memory: &Memory, slot: u32) -> Answer<Ready>
    ensures answers { result ≡ answer (first (ready_causes (valid memory.now) memory.now.pending slot)) (ready_of memory.now slot) }
    ensures below { IfOk result (λ ready. ready.at < slot_count) }
    ensures shape { HasShape memory.now }
{
    let counted = check(memory)?;
    if !memory.pending.is_nothing() {
        return Err(Error::WorkPending);
    }
    if !Bitmap::slot_in_range(slot) {
        return Err(Error::SlotRange);
    }
    let at = slot as usize;
    Ok(Ready { at, counted })
}

// Those, and 11: start and reserve.
pub fn idle(memory: &Memory, slot: u32) -> Answer<Ready>
    ensures answers { result ≡ answer (start_error memory.now slot) (ready_of memory.now slot) }
    ensures below { IfOk result (λ ready. ready.at < slot_count) }
    ensures shape { HasShape memory.now }
{
    let ready = there(memory, slot)?;
    if memory.slots[ready.at].state.is_active() {
        return Err(Error::SlotBusy);
    }
    Ok(ready)
}

// 1, 8, 10 and 12: all but start and reserve.
fn active(memory: &Memory, slot: u32) -> Answer<Ready>
    ensures answers { result ≡ answer (first (of_slot active_causes memory.now slot)) (ready_of memory.now slot) }
    ensures below { IfOk result (λ ready. ready.at < slot_count) }
    ensures shape { HasShape memory.now }
{
    let ready = there(memory, slot)?;
    if !memory.slots[ready.at].state.is_active() {
        return Err(Error::SlotIdle);
    }
    Ok(ready)
}

// Those, and 13: allocate, of an extent or not, deallocate, precommit, drop and commit cost.
pub fn open(memory: &Memory, slot: u32) -> Answer<Ready>
    ensures answers { result ≡ answer (precommit_error memory.now slot) (ready_of memory.now slot) }
    ensures below { IfOk result (λ ready. ready.at < slot_count) }
    ensures shape { HasShape memory.now }
{
    let ready = active(memory, slot)?;
    if memory.slots[ready.at].state.is_precommitted() {
        return Err(Error::SlotPrecommitted);
    }
    Ok(ready)
}

// 1, 8, 10, 12 and 14: commit and revoke.
pub fn precommitted(memory: &Memory, slot: u32) -> Answer<Ready>
    ensures answers { result ≡ answer (commit_error memory.now slot) (ready_of memory.now slot) }
    ensures below { IfOk result (λ ready. ready.at < slot_count) }
    ensures shape { HasShape memory.now }
{
    let ready = active(memory, slot)?;
    if !memory.slots[ready.at].state.is_precommitted() {
        return Err(Error::SlotNotPrecommitted);
    }
    Ok(ready)
}
