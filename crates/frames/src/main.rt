// Each call as a function of its own, so that `make speed` can measure what it takes of the stack (docs/SPEED.md). The bytes of
// standard input say which call is made, its slot, and its number of blocks, or its block.
#![tactic(auto)]

mod made;

use made::make_twice;
use printing::Output;
use script::Call;
use std::fmt::Write;

// Standard input's descriptor.
const STDIN: i32 = 0;

fn main() {
    let mut input = [0u8; 3];
    io::read_full(STDIN, &mut input);
    let slot = u32::from(input[1]);
    let n = u32::from(input[2]);
    let code = Call::try_from(input[0]).map_or(0, |call| make_twice(call, slot, n));
    let mut out = Output::new();
    // Putting text never fails: what can't be written is lost.
    let _ = writeln!(out, "{code}");
    out.flush();
}
