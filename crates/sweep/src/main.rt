// The sweep: a crash after each store of the longest commit, and again after each store of the recovery that follows
// (docs/TEST-LINES.md).
#![tactic(auto)]

mod longest;

use longest::{longest_commit, make_stores};
use model_types::memory::Memory;
use printing::Output;
use printing::runs::put_runs;
use std::fmt;
use std::fmt::Write;
use store::store;
use volume::open::open;

// Where the bitmap begins on a disk.
const BITMAP: usize = 2;
// Where the log begins, behind it.
const LOG: usize = 130;

// A crash in a recovery: what the next open finds, and the bitmap on the disk after its stores.
fn put_again(out: &mut Output, mut disk: [u32; 386], stores: u32) -> fmt::Result {
    let opened = open(&disk);
    let memory = opened.memory;
    let due = opened.answer.unwrap_or(0);
    write!(out, " again={stores} due={due}")?;
    put_runs(out, &memory.sam.words);
    make_stores(memory, &mut disk, due);
    write!(out, " disk")?;
    put_runs(out, &disk[BITMAP..LOG]);
    writeln!(out)
}

// A crash after each store of a recovery.
fn put_recovery(
    out: &mut Output,
    mut disk: [u32; 386],
    mut memory: Memory,
    due: u32,
) -> fmt::Result {
    put_again(out, disk, 0)?;
    for stores in 1..=due {
        let _ = store(&mut memory, &mut disk);
        put_again(out, disk, stores)?;
    }
    Ok(())
}

// A crash in the commit: what an open finds, and its recovery.
fn put_crash(out: &mut Output, disk: [u32; 386], stores: u32) -> fmt::Result {
    let opened = open(&disk);
    let memory = opened.memory;
    let due = opened.answer.unwrap_or(0);
    write!(out, "stores={stores} due={due}")?;
    put_runs(out, &memory.sam.words);
    writeln!(out)?;
    put_recovery(out, disk, memory, due)
}

// A crash after each store of the commit.
fn put_sweep(out: &mut Output) -> fmt::Result {
    let mut disk = [0u32; 386];
    let mut memory = Memory::zero();
    let due = longest_commit(&mut memory, &mut disk).unwrap_or(0);
    put_crash(out, disk, 0)?;
    for stores in 1..=due {
        let _ = store(&mut memory, &mut disk);
        put_crash(out, disk, stores)?;
    }
    Ok(())
}

fn main() {
    let mut out = Output::new();
    // Putting text never fails: what can't be written is lost.
    let _ = put_sweep(&mut out);
    out.flush();
}
