// What `show` prints: the fixture, words that are 0 left out of bitmaps and disk.
#![tactic(auto)]

mod slots;

use inspect_state::fixture::Fixture;
use model_types::memory::{Memory, Pending};
use printing::Output;
use slots::put_slots;
use std::fmt;
use std::fmt::Write;

// The words that aren't 0, each with its index, and the line's end.
fn put_words(out: &mut Output, words: &[u32]) -> fmt::Result {
    for (index, word) in words.iter().enumerate() {
        if *word != 0 {
            write!(out, " {index}:{word}")?;
        }
    }
    writeln!(out)
}

// All of a list, and the line's end.
fn put_list(out: &mut Output, list: &[u32]) -> fmt::Result {
    for block in list {
        write!(out, " {block}")?;
    }
    writeln!(out)
}

// The pending work.
fn put_pending(out: &mut Output, pending: Pending) -> fmt::Result {
    let (kind, slot, done, due) = match pending {
        Pending::Nothing => (0, 0, 0, 0),
        Pending::Commit { slot, done, due } => (1, slot, done, due),
        Pending::Recovery { done, due } => (2, 0, done, due),
    };
    writeln!(out, "pending={kind} {slot} {done} {due}")
}

// The memory.
fn put_memory(out: &mut Output, memory: &Memory) -> fmt::Result {
    writeln!(out, "blocks={}\ncursor={}", memory.blocks, memory.cursor)?;
    put_pending(out, memory.pending)?;
    write!(out, "sam")?;
    put_words(out, &memory.sam.words)?;
    write!(out, "com")?;
    put_words(out, &memory.com.words)?;
    put_slots(out, memory)
}

// The parts of a fixture.
fn put_parts(out: &mut Output, fixture: &Fixture) -> fmt::Result {
    let disk = fixture.disk.as_slice();
    let list = fixture.list.as_slice();
    put_memory(out, &fixture.memory)?;
    write!(out, "disk length={}", disk.len())?;
    put_words(out, disk)?;
    write!(out, "list length={}", list.len())?;
    put_list(out, list)
}

// The whole fixture: the memory, and what is lent of the disk and of the list.
pub fn put_fixture(out: &mut Output, fixture: &Fixture) {
    // Putting text never fails: what can't be written is lost.
    let _ = put_parts(out, fixture);
}
