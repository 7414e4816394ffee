// Start: the slot opens with a copy of SAM.
#![tactic(auto)]

ghost use Rattle.std.specs.Prelude.{◌≡◌};
ghost use Rattle.model.specs.Rules.Calls.Start.{start_answer, start_memory};

use model_types::answer::Answer;
use model_types::memory::{Memory, Slot, SlotState};
use verdicts::ready::idle;

// Opens a slot that is idle. Refused, the memory stays.
pub fn start(memory: &mut Memory, slot: u32) -> Answer<()>
    ensures answers { result ≡ start_answer memory.old slot }
    ensures leaves { memory.new ≡ start_memory memory.old slot }
{
    let ready = idle(memory, slot)?;
    memory.slots[ready.at] = Slot::new(SlotState::Open, memory.sam);
    Ok(())
}
