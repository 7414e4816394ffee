// What a further line asks for (docs/TEST-LINES.md).
use model_types::memory::{Pending, SlotState};

// A part of the memory, and what it becomes.
#[derive(Clone, Copy)]
pub enum Overwrite {
    Blocks { blocks: u32 },
    Cursor { block: u32 },
    Sam { index: u32, word: u32 },
    Com { index: u32, word: u32 },
    Tam { slot: u32, index: u32, word: u32 },
    State { slot: u32, state: SlotState },
    Reservation { slot: u32, blocks: u32 },
    Drawn { slot: u32, blocks: u32 },
    Pending(Pending),
}

// A further line. Its numbers may be out of range.
#[derive(Clone, Copy)]
pub enum Further {
    Disk { index: u32, word: u32 },
    Length { words: u32 },
    Memory(Overwrite),
    List { places: u32 },
    Cost { slot: u32, count: u32 },
    Extent { slot: u32, count: u32, near: u32 },
    Reserve { slot: u32, blocks: u32 },
}
