// What `show` prints of the slots.
ghost use Rattle.std.specs.Prelude.{◌<◌};
ghost use Rattle.bitmap.specs.Sizes.{slot_count};

use crate::put_words;
use model_types::memory::{Memory, Reserve, Slot};
use printing::Output;
use std::fmt;
use std::fmt::Write;

// A slot on a line: its number and its state, what is reserved for it and drawn of that, and its bitmap.
fn put_slot(out: &mut Output, s: usize, slot: &Slot, reserve: &Reserve) -> fmt::Result
    requires { s < slot_count }
{
    let state = slot.state as u32;
    let reservation = reserve.reservation;
    let drawn = reserve.drawn;
    write!(
        out,
        "slot {s} state={state} reservation={reservation} drawn={drawn}"
    )?;
    put_words(out, &slot.tam.words)
}

// Each slot.
pub(crate) fn put_slots(out: &mut Output, memory: &Memory) -> fmt::Result {
    for (s, (slot, reserve)) in memory.slots.iter().zip(&memory.reserves).enumerate() {
        put_slot(out, s, slot, reserve)?;
    }
    Ok(())
}
