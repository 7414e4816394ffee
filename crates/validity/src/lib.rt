// Whether a memory is valid (document 01: fit). Every public call asks this first, so it goes over whole words, and no part
// of the memory is copied.
#![tactic(auto)]

ghost use Rattle.std.specs.Prelude.{◌≡◌};
ghost use Rattle.model.specs.Rules.Valid.{valid};
ghost use Rattle.model.specs.Rules.Calls.Status.{status_error};
ghost use Rattle.model_types.specs.Answers.{answer};
ghost use Rattle.validity.specs.Checked.{bare, counted_for};
ghost use Rattle.model_types.specs.Shape.{HasShape};

use bitops::compare::is_empty;
use bits::volume_valid;
use fit::{available_for, drawn_fit};
use model_types::answer::Answer;
use model_types::error::Error;
use model_types::memory::Memory;
use pending::pending_valid;
use reserves::sums::total;
use shape::shaped;
use touches::touch::{differences, take_touched};

pub mod bits;
pub mod fit;
pub mod pending;
mod shape;

// Whether the bitmaps are those of a valid memory, whatever is reserved and pending. No slot's bitmap is looked at for bits from
// the block count on: they would be touches that aren't left.
pub fn maps_valid(memory: &Memory) -> bool
    ensures { result ≡ valid (bare memory.now) }
{
    shaped(memory);
    if !volume_valid(memory) {
        return false;
    }
    let sam = &memory.sam.words;
    let mut left = [0; 128];
    differences(&mut left, sam, &memory.com.words);
    for slot in &memory.slots {
        let fits = if slot.state.is_active() {
            take_touched(&mut left, sam, &slot.tam.words)
        } else {
            is_empty(&slot.tam.words)
        };
        if !fits {
            return false;
        }
    }
    is_empty(&left)
}

// Cause 1: whether the memory is valid. If so, the available blocks where anything is reserved, which were counted for that.
#[tactic(auto, using(crate::proofs::Laws::Slots::few_blocks, crate::proofs::Laws::Checked::refused, crate::proofs::Laws::Checked::over_reserved, crate::proofs::Laws::Checked::accepted))]
pub fn check(memory: &Memory) -> Answer<Option<u32>>
    ensures answers { result ≡ answer (status_error memory.now) (counted_for memory.now) }
    ensures shape { HasShape memory.now }
{
    shaped(memory);
    if !maps_valid(memory) || !drawn_fit(memory) || !pending_valid(memory) {
        return Err(Error::MemoryInvalid);
    }
    let reserved = total(&memory.reserves);
    let Some(available) = available_for(reserved, memory) else {
        return Ok(None);
    };
    if u64::from(available) < reserved {
        return Err(Error::MemoryInvalid);
    }
    Ok(Some(available))
}
