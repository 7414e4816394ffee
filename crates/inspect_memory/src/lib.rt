// A part of the memory overwritten, as further lines ask for it (docs/TEST-LINES.md).
#![tactic(auto)]

ghost use Rattle.std.specs.Prelude.{◌≡◌, ◌<◌, ◌↔◌, IsSome, IfNone, IfSome, OnSome};
ghost use Rattle.inspect_memory.specs.Overwritten.{InRange, overwritten};

use bitmap::Bitmap;
use further_line::asked::Overwrite;
use model_types::memory::Memory;

// The index of so many that a number is, if it is one.
fn index_of(number: u32, count: usize) -> Option<usize>
    ensures in_range { IsSome result ↔ (number < count) }
    ensures index { IfSome result (λ i. i ≡ number) }
{
    let index = number as usize;
    (index < count).then_some(index)
}

// Overwrites a part of the memory, or nothing of it if that is out of range.
pub fn overwrite(part: Overwrite, memory: &mut Memory) -> Option<()>
    ensures in_range { IsSome result ↔ InRange part }
    ensures overwritten { OnSome result (memory.new ≡ overwritten part memory.old) }
    ensures kept { IfNone result (memory.new ≡ memory.old) }
{
    match part {
        Overwrite::Blocks { blocks } => memory.blocks = blocks,
        Overwrite::Cursor { block } => memory.cursor = block,
        Overwrite::Sam { index, word } => memory.sam.words[index_of(index, Bitmap::WORDS)?] = word,
        Overwrite::Com { index, word } => memory.com.words[index_of(index, Bitmap::WORDS)?] = word,
        Overwrite::Tam { slot, index, word } => {
            let s = index_of(slot, Bitmap::SLOTS)?;
            memory.slots[s].tam.words[index_of(index, Bitmap::WORDS)?] = word
        }
        Overwrite::State { slot, state } => {
            memory.slots[index_of(slot, Bitmap::SLOTS)?].state = state
        }
        Overwrite::Reservation { slot, blocks } => {
            memory.reserves[index_of(slot, Bitmap::SLOTS)?].reservation = blocks
        }
        Overwrite::Drawn { slot, blocks } => {
            memory.reserves[index_of(slot, Bitmap::SLOTS)?].drawn = blocks
        }
        Overwrite::Pending(pending) => memory.pending = pending,
    }
    Some(())
}
