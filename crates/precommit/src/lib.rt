// Precommit: the slot takes no more touches.
#![tactic(auto)]

ghost use Rattle.std.specs.Prelude.{◌≡◌};
ghost use Rattle.model.specs.Rules.Calls.Precommit.{precommit_answer, precommit_memory};

use model_types::answer::Answer;
use model_types::memory::{Memory, SlotState};
use verdicts::ready::open;

// Precommits an open slot. It has no stores. Refused, the memory stays.
pub fn precommit(memory: &mut Memory, slot: u32) -> Answer<u32>
    ensures answers { result ≡ precommit_answer memory.old slot }
    ensures leaves { memory.new ≡ precommit_memory memory.old slot }
{
    let ready = open(memory, slot)?;
    memory.slots[ready.at].state = SlotState::Precommitted;
    Ok(0)
}
