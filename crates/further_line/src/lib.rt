// A further line of `inspect` taken apart: a word and its numbers, one space between them (docs/TEST-LINES.md).
#![tactic(auto)]

pub mod asked;
mod number;

use asked::{Further, Overwrite};
use model_types::memory::{Pending, SlotState};
use number::number;

// A slot's state: idle (0), open (1) or precommitted (2). A TryFrom would stand with the type: these numbers are `inspect`'s alone.
fn state_of(code: u32) -> Option<SlotState> {
    match code {
        0 => Some(SlotState::Idle),
        1 => Some(SlotState::Open),
        2 => Some(SlotState::Precommitted),
        _ => None,
    }
}

// Pending work: nothing (0), a commit (1) or a recovery (2).
fn pending_of(kind: u32, slot: u32, done: u32, due: u32) -> Option<Pending> {
    match kind {
        0 => Some(Pending::Nothing),
        1 => Some(Pending::Commit { slot, done, due }),
        2 => Some(Pending::Recovery { done, due }),
        _ => None,
    }
}

// A word and its numbers that ask for a part of the memory to be overwritten.
fn overwrite_of(name: &[u8], numbers: &[u32]) -> Option<Overwrite> {
    let part = match (name, numbers) {
        (b"blocks", &[blocks]) => Overwrite::Blocks { blocks },
        (b"cursor", &[block]) => Overwrite::Cursor { block },
        (b"sam", &[index, word]) => Overwrite::Sam { index, word },
        (b"com", &[index, word]) => Overwrite::Com { index, word },
        (b"tam", &[slot, index, word]) => Overwrite::Tam { slot, index, word },
        (b"state", &[slot, code]) => Overwrite::State {
            slot,
            state: state_of(code)?,
        },
        (b"reservation", &[slot, blocks]) => Overwrite::Reservation { slot, blocks },
        (b"drawn", &[slot, blocks]) => Overwrite::Drawn { slot, blocks },
        (b"pending", &[kind, slot, done, due]) => {
            Overwrite::Pending(pending_of(kind, slot, done, due)?)
        }
        _ => return None,
    };
    Some(part)
}

// A word and its numbers.
fn further_of(name: &[u8], numbers: &[u32]) -> Option<Further> {
    let line = match (name, numbers) {
        (b"disk", &[index, word]) => Further::Disk { index, word },
        (b"length", &[words]) => Further::Length { words },
        (b"list", &[places]) => Further::List { places },
        (b"cost", &[slot, count]) => Further::Cost { slot, count },
        (b"extent", &[slot, count, near]) => Further::Extent { slot, count, near },
        (b"reserve", &[slot, blocks]) => Further::Reserve { slot, blocks },
        _ => Further::Memory(overwrite_of(name, numbers)?),
    };
    Some(line)
}

// A line, without its byte 10, taken apart, if it is in form.
pub fn parse(line: &[u8]) -> Option<Further> {
    let mut fields = line.split(|byte| *byte == b' ');
    let name = fields.next()?;
    // No heap: the numbers stand in an array, and a line has four at most.
    let mut numbers = [0u32; 4];
    let mut count = 0;
    for field in fields {
        *numbers.get_mut(count)? = number(field)?;
        count += 1;
    }
    further_of(name, &numbers[..count])
}
