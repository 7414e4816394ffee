// The bench program of document 01: bench lines on standard input, answer lines on standard output. What a piece of input
// does is bench_piece's; here the pieces are read, and the answers are written.
// It is a library so that several programs can be it, each with its own stored input and output.
#![tactic(auto)]

mod reading;
mod writing;

ghost use Rattle.std.specs.Prelude.{◌≡◌, replicate};
ghost use Rattle.model.specs.Rules.Sizes.{disk_words};
ghost use Rattle.bench_state.specs.Begun.{Begun};
ghost use Rattle.bench_run.specs.Whole.{AllRead, Whole};

use bench_piece::piece::{last_line, reads_on, run_piece};
use bench_state::run::Run;
use reading::Read;
use std::rt::Stdin;
use writing::Written;

// What was read and written in all.
#[derive(Clone, Copy)]
pub struct Done {
    read: Read,
    written: Written,
}

// Reads to the input's end, or to the last line that is read, and writes the answers piece by piece. A proved loop has to
// end, so it counts pieces up to a number that no input uses up.
fn read_all(stdin: Stdin, run: &mut Run, disk: &mut [u32], out: &mut [u8; 212262]) -> Done
    requires begun { Begun run.old }
    requires disk_value { disk.old ≡ replicate disk_words 0 }
    ensures { AllRead 4096 run.new disk.new result }
{
    let mut input = [0u8; 4096];
    let mut read = Read::none();
    let mut written = Written::none();
    for pieces in 0..u64::MAX {
        let n = read.piece(stdin, &mut input);
        let piece = &input[..n];
        let end = run_piece(piece, run, disk, out);
        written.piece(&out[..end]);
        if !reads_on(piece, run) {
            return Done { read, written };
        }
    }
    Done { read, written }
}

// The whole program. It reads 4,096 bytes at a time, and has room for an answer to each of them and to each byte of a
// line that is kept. The answer to a last line that no byte 10 ends is written too.
pub fn main_loop(stdin: Stdin) -> Done
    ensures { Whole 4096 result }
{
    let mut run = Run::new();
    let mut disk = [0u32; 386];
    let mut out = [0u8; 212262];
    let mut done = read_all(stdin, &mut run, &mut disk, &mut out);
    let last = last_line(&mut run, &mut disk, &mut out);
    done.written.piece(&out[..last]);
    done
}
