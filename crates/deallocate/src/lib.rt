// Deallocate: one block given back by its slot's commit.
#![tactic(auto)]

ghost use Rattle.std.specs.Prelude.{◌≡◌};
ghost use Rattle.model.specs.Rules.Calls.Deallocate.{deallocate_answer, deallocate_memory};

use bitops::block::clear;
use causes::blocks::block_causes;
use model_types::answer::Answer;
use model_types::memory::Memory;
use verdicts::ready::open;

// Gives a block back. Refused, the memory stays.
pub fn deallocate(memory: &mut Memory, slot: u32, block: u32) -> Answer<()>
    ensures answers { result ≡ deallocate_answer memory.old slot block }
    ensures leaves { memory.new ≡ deallocate_memory memory.old slot block }
{
    let ready = open(memory, slot)?;
    block_causes(memory, block)?;
    clear(&mut memory.com.words, block);
    clear(&mut memory.slots[ready.at].tam.words, block);
    Ok(())
}
