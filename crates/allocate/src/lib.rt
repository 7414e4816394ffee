// Allocate: the first available blocks met from the cursor on to a slot, their numbers to the first places of the list.
#![tactic(auto)]

ghost use Rattle.std.specs.Prelude.{◌≡◌};
ghost use Rattle.model.specs.Rules.Calls.Allocate.{allocate_answer, allocate_memory, allocate_list};

use available::scan::take_met;
use causes::counted::available_now;
use causes::grants::grant_causes;
use model_types::answer::Answer;
use model_types::memory::Memory;
use reserves::change::draw;
use reserves::sums::others;
use verdicts::ready::open;

// Gives a slot blocks. Refused, the memory and the list stay.
pub fn allocate(memory: &mut Memory, slot: u32, count: u32, list: &mut [u32]) -> Answer<u32>
    ensures answers { result ≡ allocate_answer memory.old slot count list.old }
    ensures leaves { memory.new ≡ allocate_memory memory.old slot count list.old }
    ensures lists { list.new ≡ allocate_list memory.old slot count list.old }
{
    let ready = open(memory, slot)?;
    let at = ready.at;
    let available = available_now(memory, ready.counted);
    let kept = others(&memory.reserves, at);
    grant_causes(available, count, list, kept)?;
    memory.cursor = take_met(
        &memory.sam.words,
        &mut memory.com.words,
        &mut memory.slots[at].tam.words,
        list,
        memory.blocks,
        memory.cursor,
        count,
    );
    draw(&mut memory.reserves[at], count);
    Ok(list[0])
}
