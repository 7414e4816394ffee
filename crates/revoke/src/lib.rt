// Revoke: a precommitted slot's transaction is rolled back.
#![tactic(auto)]

ghost use Rattle.std.specs.Prelude.{◌≡◌};
ghost use Rattle.model.specs.Rules.Calls.Revoke.{revoke_answer, revoke_memory};

use model_types::answer::Answer;
use model_types::memory::Memory;
use rollback::undo;
use verdicts::ready::precommitted;

// Rolls back a precommitted slot, and puts back what it has drawn. It has no stores. Refused, the memory stays.
pub fn revoke(memory: &mut Memory, slot: u32) -> Answer<u32>
    ensures answers { result ≡ revoke_answer memory.old slot }
    ensures leaves { memory.new ≡ revoke_memory memory.old slot }
{
    let ready = precommitted(memory, slot)?;
    undo(memory, ready.at);
    Ok(0)
}
