// What the types of a memory's fields say of it: words of 32 bits, and arrays of the right lengths. A proof is told that of an array
// that is a parameter by reference, but not of a field behind a reference. No ghost field of the memory tells it, since the definitions
// write memories as records, and each would have to carry the proof.
ghost use Rattle.std.specs.Prelude.{◌≡◌, length};
ghost use Rattle.bitmap.specs.Bits.{IsBitmap};
ghost use Rattle.bitmap.specs.Sizes.{slot_count};
ghost use Rattle.model_types.specs.Shape.{HasShape};

use model_types::memory::{Memory, Reserve, Slot};

// Of the words of a bitmap.
fn words_shaped(words: &[u32; 128])
    ensures { IsBitmap words.now }
{
    let _first = words[0];
}

// Of an array of slots.
fn slots_shaped(slots: &[Slot; 8])
    ensures { length slots.now ≡ slot_count }
{}

// Of what is reserved for them.
fn reserves_shaped(reserves: &[Reserve; 8])
    ensures { length reserves.now ≡ slot_count }
{}

// Of a whole memory.
pub fn shaped(memory: &Memory)
    ensures { HasShape memory.now }
{
    words_shaped(&memory.sam.words);
    words_shaped(&memory.com.words);
    slots_shaped(&memory.slots);
    reserves_shaped(&memory.reserves);
    for slot in &memory.slots {
        words_shaped(&slot.tam.words);
    }
}
