// What drop and revoke do to a slot that they serve: one piece of work for both.
#![tactic(auto)]

ghost use Rattle.std.specs.Prelude.{◌≡◌, ◌<◌, true};
ghost use Rattle.bitmap.specs.Sizes.{slot_count};
ghost use Rattle.model.specs.Rules.Valid.{valid};
ghost use Rattle.model.specs.Rules.Rollback.{rolled_back};
ghost use Rattle.model_types.specs.Shape.{HasShape};

use bitops::combine;
use model_types::memory::{Memory, Slot};
use reserves::change::put_back;

// Makes COM as it was before the slot touched it, and puts back what the slot has drawn. The slot is idle then. That the memory is
// valid is a clause: a type for it would have to be made again at each write.
pub fn undo(memory: &mut Memory, at: usize)
    requires is_valid { valid memory.old ≡ true }
    requires shape { HasShape memory.old }
    requires at_lt_slot_count { at < slot_count }
    ensures { memory.new ≡ rolled_back memory.old at }
{
    combine::rollback(
        &mut memory.com.words,
        &memory.sam.words,
        &memory.slots[at].tam.words,
    );
    memory.slots[at] = Slot::idle();
    put_back(&mut memory.reserves[at]);
}
