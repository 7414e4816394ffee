// Drop: an open slot's transaction is rolled back.
#![tactic(auto)]

ghost use Rattle.std.specs.Prelude.{◌≡◌};
ghost use Rattle.model.specs.Rules.Calls.Drop.{drop_answer, drop_memory};

use model_types::answer::Answer;
use model_types::memory::Memory;
use rollback::undo;
use verdicts::ready::open;

// Rolls back an open slot, and puts back what it has drawn. Refused, the memory stays.
pub fn drop(memory: &mut Memory, slot: u32) -> Answer<()>
    ensures answers { result ≡ drop_answer memory.old slot }
    ensures leaves { memory.new ≡ drop_memory memory.old slot }
{
    let ready = open(memory, slot)?;
    undo(memory, ready.at);
    Ok(())
}
