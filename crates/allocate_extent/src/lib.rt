// Allocate extent: adjoining available blocks, as near to a named block as they are to be had, to a slot; their numbers to the first
// places of the list.
#![tactic(auto)]

ghost use Rattle.std.specs.Prelude.{◌≡◌};
ghost use Rattle.model.specs.Rules.Calls.AllocateExtent.{allocate_extent_answer, allocate_extent_memory, allocate_extent_list};

use bitmap::Bitmap;
use causes::grants::{request_causes, spare_causes};
use extents::nearest::nearest_extent;
use extents::take::take_extent;
use model_types::answer::Answer;
use model_types::error::Error;
use model_types::memory::Memory;
use reserves::change::draw;
use reserves::sums::others;
use verdicts::ready::open;

// Gives a slot an extent. Refused, the memory and the list stay.
pub fn allocate_extent(
    memory: &mut Memory,
    slot: u32,
    count: u32,
    near: u32,
    list: &mut [u32],
) -> Answer<u32>
    ensures answers { result ≡ allocate_extent_answer memory.old slot count near list.old }
    ensures leaves { memory.new ≡ allocate_extent_memory memory.old slot count near list.old }
    ensures lists { list.new ≡ allocate_extent_list memory.old slot count near list.old }
{
    let ready = open(memory, slot)?;
    let at = ready.at;
    let blocks = memory.blocks;
    request_causes(blocks, count, near, list)?;
    let found = nearest_extent(&memory.sam.words, &memory.com.words, blocks, count, near);
    let Some(start) = found else {
        return Err(Error::NoExtent);
    };
    // Where nothing is reserved the available blocks weren't counted: none are kept for others, and any number will do.
    let available = ready.counted.unwrap_or(0);
    let kept = others(&memory.reserves, at);
    spare_causes(available, count, kept)?;
    take_extent(
        &mut memory.com.words,
        &mut memory.slots[at].tam.words,
        list,
        start,
        count,
    );
    draw(&mut memory.reserves[at], count);
    memory.cursor = Bitmap::wrapped(start + count, blocks);
    Ok(start)
}
