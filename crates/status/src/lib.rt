// Status: how many blocks are allocated, how many can be had, are on their way in and out, and are held, and how many slots
// aren't idle. The memory stays.
#![tactic(auto)]

ghost use Rattle.std.specs.Prelude.{◌≡◌};
ghost use Rattle.model.specs.Rules.Calls.Status.{active_slots, status_answer};

use counting::count_blocks;
use model_types::answer::{Answer, Counts};
use model_types::memory::{Memory, Slot};
use validity::check;

// The number of slots that aren't idle.
fn count_active(slots: &[Slot; 8]) -> u32
    ensures { result ≡ active_slots slots.now }
{
    let mut count = 0;
    for slot in slots {
        if slot.state.is_active() {
            count += 1;
        }
    }
    count
}

// Counts the blocks by their bits in SAM and COM, and the slots that aren't idle. Of the allocated blocks those that aren't being
// freed are held; of all blocks those that are neither allocated nor being allocated are available.
pub fn status(memory: &Memory) -> Answer<Counts>
    ensures { result ≡ status_answer memory.now }
{
    check(memory)?;
    let tally = count_blocks(&memory.sam.words, &memory.com.words);
    let allocated = tally.allocated;
    let allocating = tally.allocating;
    let freeing = tally.freeing;
    Ok(Counts {
        allocated,
        available: memory.blocks - allocated - allocating,
        allocating,
        freeing,
        held: allocated - freeing,
        active: count_active(&memory.slots),
    })
}
