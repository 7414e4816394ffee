// The bench program's output: an answer's line printed.
#![tactic(auto)]

mod put;

ghost use Rattle.std.specs.Prelude.{◌+◌, ◌≤◌, length};
ghost use Rattle.model.specs.Rules.Line.{answer_line};
ghost use Rattle.bench_answer.specs.Put.{Put, max_answer};

use put::{put_bytes, put_field};

// Puts an answer's line into out from index at on, and returns the index after it. The rest of out
// is unchanged. The index comes with the bytes, since many answers are put into one array (no heap) before it is written.
pub fn print_answer(out: &mut [u8], at: usize, call: u32, answer: u32, value: u32) -> usize
    requires { at + max_answer ≤ length out.old }
    ensures { Put out.old at (answer_line call answer value) out.new result }
{
    let after_call = put_field(out, at, b"call=", call);
    let after_answer = put_field(out, after_call, b" answer=", answer);
    let after_value = put_field(out, after_answer, b" value=", value);
    put_bytes(out, after_value, b"\n")
}
