// Calls in turn as a client makes them, for `make speed` (docs/SPEED.md): standard input is a script, and standard output a
// checksum of all answers.
#![tactic(auto)]

mod steps;

use printing::Output;
use std::fmt::Write;
use steps::make_steps;

// Standard input's descriptor.
const STDIN: i32 = 0;

fn main() {
    let mut script = [0u8; 65536];
    io::read_full(STDIN, &mut script);
    let sum = make_steps(&script);
    let mut out = Output::new();
    // Putting text never fails: what can't be written is lost.
    let _ = writeln!(out, "{sum}");
    out.flush();
}
