// Commit: ends at once where it changes no word of SAM. Otherwise its stores are due, and store makes them.
#![tactic(auto)]

ghost use Rattle.std.specs.Prelude.{◌≡◌, length};
ghost use Rattle.model.specs.Rules.Stores.{changes};
ghost use Rattle.model.specs.Rules.Calls.Commit.{commit_answer, commit_memory};
ghost use Rattle.commit.specs.Due.{due_for};

use bitops::compare::changed;
use model_types::answer::Answer;
use model_types::memory::{Memory, Pending, Slot};
use verdicts::ready::precommitted;

// The stores of a commit to this TAM: none where it changes no word.
fn stores_due(sam: &[u32; 128], tam: &[u32; 128]) -> u32
    ensures { result ≡ due_for (length (changes sam.now tam.now)) }
{
    let words = changed(sam, tam);
    if words == 0 {
        return 0;
    }
    Pending::stores_for(words)
}

// Commits a precommitted slot. Refused, the memory stays. Its TAM is the SAM to be. One that changes no word took nothing, so it
// has drawn nothing that could be used up.
pub fn commit(memory: &mut Memory, slot: u32) -> Answer<u32>
    ensures answers { result ≡ commit_answer memory.old slot }
    ensures leaves { memory.new ≡ commit_memory memory.old slot }
{
    let ready = precommitted(memory, slot)?;
    let due = stores_due(&memory.sam.words, &memory.slots[ready.at].tam.words);
    if due == 0 {
        memory.slots[ready.at] = Slot::idle();
    } else {
        memory.pending = Pending::Commit { slot, done: 0, due };
    }
    Ok(due)
}
