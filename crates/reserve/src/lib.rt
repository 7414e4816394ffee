// Reserve: blocks set aside for an idle slot, in the place of what was.
#![tactic(auto)]

ghost use Rattle.std.specs.Prelude.{◌≡◌};
ghost use Rattle.model.specs.Rules.Calls.Reserve.{reserve_answer, reserve_memory};

use causes::counted::available_now;
use causes::grants::room_causes;
use model_types::answer::Answer;
use model_types::memory::Memory;
use reserves::sums::others;
use verdicts::ready::idle;

// Sets a slot's reservation. Refused, the memory stays.
pub fn reserve(memory: &mut Memory, slot: u32, reservation: u32) -> Answer<()>
    ensures answers { result ≡ reserve_answer memory.old slot reservation }
    ensures leaves { memory.new ≡ reserve_memory memory.old slot reservation }
{
    let ready = idle(memory, slot)?;
    let available = available_now(memory, ready.counted);
    let kept = others(&memory.reserves, ready.at);
    room_causes(available, kept, reservation)?;
    memory.reserves[ready.at].reservation = reservation;
    Ok(())
}
